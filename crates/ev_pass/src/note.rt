//! What one vat tells another, in the numbers of the vat that tells it.

use crate::draw::Swiss;
use ev_base::{MsgId, ObjId, PromId, Value, VatId, Word};

/// What a note is about at the vat that it goes to: an object or a promise, as this vat knows it.
#[derive(Clone, Copy)]
pub enum Reference {
    /// An object of this vat.
    Object(ObjId),
    Promise(PromId),
    /// An object of another vat, by its position.
    Far(VatId, u64),
}

/// A value as it passes.
pub enum Passed {
    /// Data, or a name of this vat or of the receiver.
    Plain(Value),
    /// A gift at that vat, which this vat provides.
    Gift(VatId, Swiss),
    /// A list, by its members.
    List(Vec<Passed>),
}

impl Drop for Passed {
    fn drop(self) {
        match self {
            Self::Plain(_) => {}
            Self::Gift(_, _) => {}
            Self::List(_items) => {}
        }
    }
}

/// What one vat tells another.
pub enum Note {
    /// A message, and, if it asks for an answer, the name as which this vat knows the answer there.
    Deliver {
        message: MsgId,
        answer: Option<PromId>,
        target: Reference,
        verb: Word,
        args: Vec<Passed>,
    },
    /// The sender's gift under that word is this.
    Open(Swiss, Reference),
    /// The gift of that provider under that word is asked for, which the asker knows as that name.
    Ask(VatId, Swiss, PromId),
    /// A name settled to that.
    Settled(PromId, Passed),
    /// A name settled to an object of that vat.
    Elsewhere(PromId, VatId),
    /// The object that the name settled to is wanted as a gift at that vat, under that word.
    Shorten(PromId, VatId, Swiss),
}

impl Drop for Note {
    fn drop(self) {
        match self {
            Self::Deliver {
                message: _,
                answer: _,
                target: _,
                verb: _verb,
                args: _args,
            } => {}
            Self::Open(_, _) => {}
            Self::Ask(_, _, _) => {}
            Self::Settled(_, _passed) => {}
            Self::Elsewhere(_, _) => {}
            Self::Shorten(_, _, _) => {}
        }
    }
}
