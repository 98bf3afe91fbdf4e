//! What happens in a step of one vat, in its own numbers.

use crate::kept::Capture;
use ev_base::{ActId, ListId, MsgId, PromId, Seq, SlotId, Value, VatId, Word};

/// What happens in a step. A vat turns each but the last three into a line of the history.
#[derive(Drop)]
pub enum Happened {
    /// A message is delivered as an activation.
    Take {
        activation: ActId,
        message: MsgId,
        target: Value,
        verb: Word,
        args: Seq<Value>,
        /// The name of its answer, where it has one. Its line does not tell it.
        answer: Option<PromId>,
    },
    /// A call on data, an ejector, a resolver, an audition or an object. `begun` is the activation that a call on an object begins.
    Call {
        activation: ActId,
        target: Value,
        verb: Word,
        args: Seq<Value>,
        begun: Option<ActId>,
    },
    /// The innermost open call answered.
    Back(ActId, Value),
    /// It threw a problem.
    Thrown(ActId, Value),
    /// It was left by an ejection.
    Gone(ActId),
    /// An escape, a match or a matcher received a value from its ejector.
    Got(ActId, Value),
    /// A var slot was made, read, written.
    Slot(ActId, SlotId, Value),
    Read(ActId, SlotId, Value),
    Wrote(ActId, SlotId, Value),
    /// A list was made by an activation.
    List(ActId, ListId, Seq<Value>),
    /// A list arrived.
    Arrived(ListId, Seq<Value>),
    Ejector(ActId, Value),
    Audition(ActId, Value),
    /// A promise was made, with its resolver.
    Promise(ActId, PromId, Value),
    /// An object was made.
    Made {
        activation: ActId,
        object: Value,
        name: Word,
        caps: Seq<Capture>,
        stamps: Seq<Value>,
    },
    Send {
        activation: ActId,
        message: MsgId,
        target: Value,
        verb: Word,
        args: Seq<Value>,
        /// The name of its answer, where it has one.
        answer: Option<PromId>,
    },
    /// A reaction was asked for: `reaction` is the object as it was held, and `near` what it was followed to, which the message runs.
    When {
        activation: ActId,
        message: MsgId,
        value: Value,
        reaction: Value,
        near: Value,
        answer: PromId,
    },
    /// The turn ended with a value, or with a problem.
    Done(ActId, Value),
    Threw(ActId, Value),
    /// A name settled to a value, began to wait on another, or has another as its view.
    Settle(PromId, Value),
    Wait(PromId, PromId),
    View(PromId, PromId),
    /// A message was lost on a broken reference.
    LostBroken(MsgId),
    /// A message was put on the link to that vat.
    Posted(VatId, MsgId),
    /// A message arrived.
    Came(MsgId),
    /// A name of another vat, or a gift, came to be known.
    Learnt(PromId),
}
