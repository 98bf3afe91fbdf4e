//! What a vat counts of its own: promises that it makes, and messages that it has had.

ghost use Rattle.std.specs.Prelude.{◌≡◌, ◌++◌, ◌∷◌, [], IfOk, OnErr, OnOk, drop, length, slice_get};
ghost use Rattle.ev_refs.specs.Mailing.{with_lone_message, with_mail, with_message, with_promise};

use crate::known::Message;
use crate::refs::Refs;
use ev_base::{Memory, MsgId, PromId, VatId};

/// The number of a new message, and the name of its answer.
#[derive(Clone, Copy)]
pub struct Fresh {
    pub id: MsgId,
    pub answer: PromId,
}

impl Refs {
    /// A promise that the vat makes comes to be known, as the last name.
    pub fn new_promise(&mut self) -> Result<PromId, Memory>
        ensures number { IfOk result (λ id. id ≡ length self.old.known) }
        ensures ok { OnOk result (self.new ≡ with_promise self.old) }
        ensures err { OnErr result (self.new ≡ self.old) }
    {
        let me = self.me;
        let Some(promises) = self.promises.checked_add(1) else {
            return Err(Memory);
        };
        let id = self.learn(me)?;
        self.promises = promises;
        Ok(id)
    }

    /// A message of the vat's own comes to be, with its answer at that host.
    pub fn new_message(&mut self, host: VatId) -> Result<Fresh, Memory>
        ensures number { IfOk result (λ f. (f.id ≡ self.old.mails) × (f.answer ≡ length self.old.known)) }
        ensures ok { OnOk result (self.new ≡ with_message host self.old) }
        ensures err { OnErr result (self.new ≡ self.old) }
    {
        let id = MsgId(self.mails);
        let Some(mails) = self.mails.checked_add(1) else {
            return Err(Memory);
        };
        let Some(messages) = self.messages.checked_add(1) else {
            return Err(Memory);
        };
        let answer = self.learn(host)?;
        self.mails = mails;
        self.messages = messages;
        Ok(Fresh { id, answer })
    }

    /// A message of the vat's own comes to be that asks for no answer.
    pub fn new_lone_message(&mut self) -> Result<MsgId, Memory>
        ensures number { IfOk result (λ id. id ≡ self.old.mails) }
        ensures ok { OnOk result (self.new ≡ with_lone_message self.old) }
        ensures err { OnErr result (self.new ≡ self.old) }
    {
        let id = MsgId(self.mails);
        let Some(mails) = self.mails.checked_add(1) else {
            return Err(Memory);
        };
        let Some(messages) = self.messages.checked_add(1) else {
            return Err(Memory);
        };
        self.mails = mails;
        self.messages = messages;
        Ok(id)
    }

    /// A message of another vat comes to be here.
    pub fn mail(&mut self) -> Result<MsgId, Memory>
        ensures number { IfOk result (λ id. id ≡ self.old.mails) }
        ensures ok { OnOk result (self.new ≡ with_mail self.old) }
        ensures err { OnErr result (self.new ≡ self.old) }
    {
        let id = MsgId(self.mails);
        let Some(mails) = self.mails.checked_add(1) else {
            return Err(Memory);
        };
        self.mails = mails;
        Ok(id)
    }

    /// A message goes to the end of the queue. A refusal changes nothing.
    pub fn enqueue(&mut self, message: Message) -> Result<(), Memory>
        ensures ok { OnOk result (self.new ≡ record self.old { queue = self.old.queue ++ message ∷ [] }) }
        ensures err { OnErr result (self.new ≡ self.old) }
    {
        self.queue.push(message)
    }

    /// The message in front leaves the queue. None exactly where no message waits for its turn.
    pub fn dequeue(&mut self) -> Option<Message>
        ensures first { result ≡ slice_get self.old.queue 0 }
        ensures rest { self.new ≡ record self.old { queue = drop 1 self.old.queue } }
    {
        self.queue.pop()
    }

    /// The link with that vat is noticed as cut. A refusal changes nothing.
    pub fn mark(&mut self, peer: VatId) -> Result<(), Memory>
        ensures ok { OnOk result (self.new ≡ record self.old { noticed = self.old.noticed ++ peer ∷ [] }) }
        ensures err { OnErr result (self.new ≡ self.old) }
    {
        self.noticed.push(peer)
    }
}
