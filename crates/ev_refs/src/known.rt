//! What a vat knows of a name, and what waits there.

ghost use Rattle.std.specs.Prelude.{◌≡◌, OnErr, OnOk};
ghost use Rattle.def_machine.specs.State.{is_in, with_vat};
ghost use Rattle.ev_refs.specs.Changes.{seen_as, settled_as, unless_settled, waiters_at, waiting_on, with_held, with_reaction, with_told, with_waiting};

use ev_base::{Memory, MsgId, PromId, Seq, Value, VatId, Word};
use std::alloc::Global;
use std::mem;

/// How a name stands at a vat.
#[derive(Clone, Copy)]
pub enum Standing {
    Unsettled,
    /// It waits on another name.
    WaitsOn(PromId),
    /// Its view is another name, a gift, on which it waits.
    Viewed(PromId),
    Settled(Value),
}

/// A message at its vat.
#[derive(Drop)]
pub struct Message {
    /// Its number among the messages that the vat has had.
    pub id: MsgId,
    pub target: Value,
    pub verb: Word,
    pub args: Seq<Value>,
    /// The name of its answer, if it asks for one.
    pub answer: Option<PromId>,
}

/// What a vat knows of a name.
pub struct Known {
    /// The vat that tells of it.
    pub host: VatId,
    pub standing: Standing,
    /// The messages that were sent on it and wait here, in order.
    pub held: Seq<Message>,
    /// The names that wait on it, in order.
    pub waiting: Seq<PromId>,
    /// The reactions on it, in order.
    pub reactions: Seq<Message>,
    /// The vats that are to be told of it, in order of their right.
    pub told: Seq<VatId>,
}

impl Drop for Known {
    fn drop(self) {
        let Self {
            host: _,
            standing: _,
            held: _held,
            waiting: _waiting,
            reactions: _reactions,
            told: _told,
        } = self;
    }
}

/// What waits at a name.
#[derive(Drop)]
pub struct Waiters {
    pub held: Seq<Message>,
    pub waiting: Seq<PromId>,
    pub reactions: Seq<Message>,
    pub told: Seq<VatId>,
}

/// Whether a vat is among these.
#[tactic(auto, unfolding(def_machine::specs::State::is_in))]
pub(crate) fn is_among(vat: VatId, vats: &[VatId]) -> bool
    ensures { result ≡ is_in vat vats.now }
{
    for other in vats {
        if vat == *other {
            return true;
        }
    }
    false
}

impl Known {
    /// A message that was sent on the name waits here, unless it settled.
    #[tactic(auto, unfolding(crate::specs::Changes::unless_settled))]
    pub(crate) fn hold(&mut self, message: Message) -> Result<(), Memory>
        ensures ok { OnOk result (self.new ≡ with_held message self.old) }
        ensures err { OnErr result (self.new ≡ self.old) }
    {
        match self.standing {
            Standing::Settled(_) => Ok(()),
            Standing::Unsettled | Standing::WaitsOn(_) | Standing::Viewed(_) => {
                self.held.push(message)
            }
        }
    }

    /// Another name waits on it, unless it settled.
    #[tactic(auto, unfolding(crate::specs::Changes::unless_settled))]
    pub(crate) fn wait(&mut self, other: PromId) -> Result<(), Memory>
        ensures ok { OnOk result (self.new ≡ with_waiting other self.old) }
        ensures err { OnErr result (self.new ≡ self.old) }
    {
        match self.standing {
            Standing::Settled(_) => Ok(()),
            Standing::Unsettled | Standing::WaitsOn(_) | Standing::Viewed(_) => {
                self.waiting.push(other)
            }
        }
    }

    /// It waits on another name, unless it settled.
    #[tactic(auto, unfolding(crate::specs::Changes::unless_settled))]
    pub(crate) fn wait_on(&mut self, other: PromId)
        ensures { self.new ≡ waiting_on other self.old }
    {
        match self.standing {
            Standing::Settled(_) => {}
            Standing::Unsettled | Standing::WaitsOn(_) | Standing::Viewed(_) => {
                self.standing = Standing::WaitsOn(other);
            }
        }
    }

    /// That gift is its view, unless it settled.
    #[tactic(auto, unfolding(crate::specs::Changes::unless_settled))]
    pub(crate) fn see(&mut self, gift: PromId)
        ensures { self.new ≡ seen_as gift self.old }
    {
        match self.standing {
            Standing::Settled(_) => {}
            Standing::Unsettled | Standing::WaitsOn(_) | Standing::Viewed(_) => {
                self.standing = Standing::Viewed(gift);
            }
        }
    }

    /// A reaction waits on it, unless it settled.
    #[tactic(auto, unfolding(crate::specs::Changes::unless_settled))]
    pub(crate) fn react(&mut self, message: Message) -> Result<(), Memory>
        ensures ok { OnOk result (self.new ≡ with_reaction message self.old) }
        ensures err { OnErr result (self.new ≡ self.old) }
    {
        match self.standing {
            Standing::Settled(_) => Ok(()),
            Standing::Unsettled | Standing::WaitsOn(_) | Standing::Viewed(_) => {
                self.reactions.push(message)
            }
        }
    }

    /// A vat is to be told of it, once, unless it settled.
    #[tactic(auto, unfolding(crate::specs::Changes::unless_settled, def_machine::specs::State::with_vat))]
    pub(crate) fn tell(&mut self, vat: VatId) -> Result<(), Memory>
        ensures ok { OnOk result (self.new ≡ with_told vat self.old) }
        ensures err { OnErr result (self.new ≡ self.old) }
    {
        if is_among(vat, self.told.as_slice()) {
            return Ok(());
        }
        match self.standing {
            Standing::Settled(_) => Ok(()),
            Standing::Unsettled | Standing::WaitsOn(_) | Standing::Viewed(_) => self.told.push(vat),
        }
    }

    /// It settles, unless it did before, and what waited here is handed out.
    #[tactic(auto, unfolding(crate::specs::Changes::unless_settled, crate::specs::Changes::waiters_at))]
    pub(crate) fn settle(&mut self, alloc: Global, value: Value) -> Option<Waiters>
        ensures settled { self.new ≡ settled_as value self.old }
        ensures waiters { result ≡ waiters_at self.old.standing self.old }
    {
        match self.standing {
            Standing::Settled(_) => None,
            Standing::Unsettled | Standing::WaitsOn(_) | Standing::Viewed(_) => {
                self.standing = Standing::Settled(value);
                Some(Waiters {
                    held: mem::replace(&mut self.held, Seq::new(alloc)),
                    waiting: mem::replace(&mut self.waiting, Seq::new(alloc)),
                    reactions: mem::replace(&mut self.reactions, Seq::new(alloc)),
                    told: mem::replace(&mut self.told, Seq::new(alloc)),
                })
            }
        }
    }
}
