//! The references of one vat.

ghost use Rattle.std.specs.Prelude.{◌≡◌, ◌+◌, ◌<◌, ◌++◌, ◌∷◌, [], IfOk, OnErr, OnOk, Some, length, option_map, slice_get};
ghost use Rattle.ev_refs.specs.References.{References, no_references, unsettled_of};

use crate::known::{Known, Message, Standing};
use crate::queue::TurnQueue;
use ev_base::{Memory, PromId, Seq, TextId, VatId};
use std::alloc::Global;
use std::marker::Model;

/// What a vat knows of names, numbered from 0 in the order in which it came to know them; the messages that wait for their turn;
/// and how many messages and promises it has had. No name is ever forgotten.
pub struct Refs {
    pub(crate) alloc: Global,
    pub(crate) me: VatId,
    pub(crate) partition: TextId,
    pub(crate) cycle: TextId,
    pub(crate) known: Vec<Known>,
    pub(crate) queue: TurnQueue<Message>,
    pub(crate) mails: u64,
    pub(crate) messages: u64,
    pub(crate) promises: u64,
    pub(crate) noticed: Seq<VatId>,
}

impl Drop for Refs {
    fn drop(self) {
        let Self {
            alloc: _,
            me: _,
            partition: _,
            cycle: _,
            known: _known,
            queue: _queue,
            mails: _,
            messages: _,
            promises: _,
            noticed: _noticed,
        } = self;
    }
}

impl Model for Refs {
    ghost use Rattle.ev_refs.specs.References.{References};

    ghost Value = { References };

    ghost view = { λ r. record { me = r.me; partition = r.partition; cycle = r.cycle; known = r.known.items; queue = r.queue; mails = r.mails; messages = r.messages; promises = r.promises; noticed = r.noticed } };
}

impl Refs {
    /// The references of a vat that knows nothing. The texts `partition` and `cycle` have these numbers in its heap.
    pub fn new(alloc: Global, me: VatId, partition: TextId, cycle: TextId) -> Refs
        ensures { result ≡ no_references me partition cycle }
    {
        Refs {
            alloc,
            me,
            partition,
            cycle,
            known: Vec::new(alloc),
            queue: TurnQueue::new(alloc),
            mails: 0,
            messages: 0,
            promises: 0,
            noticed: Seq::new(alloc),
        }
    }

    /// The vat's own number.
    pub fn me(&self) -> VatId
        ensures { result ≡ self.now.me }
    {
        self.me
    }

    /// The text `partition`.
    pub fn partition(&self) -> TextId
        ensures { result ≡ self.now.partition }
    {
        self.partition
    }

    /// The text `cycle`.
    pub fn cycle(&self) -> TextId
        ensures { result ≡ self.now.cycle }
    {
        self.cycle
    }

    /// How many messages of its own there were.
    pub fn messages(&self) -> u64
        ensures { result ≡ self.now.messages }
    {
        self.messages
    }

    /// How many promises it made.
    pub fn promises(&self) -> u64
        ensures { result ≡ self.now.promises }
    {
        self.promises
    }

    /// How many names are known.
    pub fn count(&self) -> u64
        ensures { result ≡ length self.now.known }
    {
        self.known.len() as u64
    }

    /// What is known of each name, by its number.
    pub fn known(&self) -> &[Known]
        ensures { result.now ≡ self.now.known }
    {
        self.known.as_slice()
    }

    /// A name of that host comes to be known.
    pub fn learn(&mut self, host: VatId) -> Result<PromId, Memory>
        ensures number { IfOk result (λ id. id ≡ length self.old.known) }
        ensures ok { OnOk result (self.new ≡ record self.old { known = self.old.known ++ unsettled_of host ∷ [] }) }
        ensures err { OnErr result (self.new ≡ self.old) }
    {
        let id = PromId(self.known.len() as u64);
        self.known.push(Known {
            host,
            standing: Standing::Unsettled,
            held: Seq::new(self.alloc),
            waiting: Seq::new(self.alloc),
            reactions: Seq::new(self.alloc),
            told: Seq::new(self.alloc),
        })?;
        Ok(id)
    }

    /// How a name stands.
    pub fn standing(&self, name: PromId) -> Standing
        requires { name < length self.now.known }
        ensures { option_map (λ k. k.standing) (slice_get self.now.known name) ≡ Some result }
    {
        self.known[name.0 as usize].standing
    }

    /// The vat that tells of a name.
    pub fn host(&self, name: PromId) -> VatId
        requires { name < length self.now.known }
        ensures { option_map (λ k. k.host) (slice_get self.now.known name) ≡ Some result }
    {
        self.known[name.0 as usize].host
    }
}
