//! Operations, and descriptions of values in them.
//!
//! "Yours" is the receiver's and "mine" the sender's. A position counts what one vat exported to another, and a
//! question counts what one vat asked of another, each from 0.

use ev_base::{PrimId, Seq, Str, VatId};

/// Data in which no name occurs.
pub enum Plain {
    Null,
    Bool(bool),
    Int(i128),
    Char(char),
    Text(Str),
    Prim(PrimId),
}

impl Drop for Plain {
    fn drop(self) {
        match self {
            Self::Null => {}
            Self::Bool(_) => {}
            Self::Int(_) => {}
            Self::Char(_) => {}
            Self::Text(_text) => {}
            Self::Prim(_) => {}
        }
    }
}

/// A description of a value.
pub enum Desc {
    Plain(Plain),
    /// A list of at most weight 65,536 and height 100, by descriptions of its members.
    ListOf(Vec<Desc>),
    /// A broken reference, with its problem.
    Broken(Str),
    /// What the receiver exported at this position.
    YourExport(u64),
    /// The answer of the sender's question of this number.
    YourAnswer(u64),
    /// An object that the sender exports at this position.
    MyExport(u64),
    /// A promise that the sender exports at this position.
    MyPromise(u64),
    /// A gift at a third vat, under a swiss number that the sender provided there.
    Third { host: VatId, swiss: u128 },
    /// The answer of the receiver's question of this number.
    MyAnswer(u64),
}

impl Drop for Desc {
    fn drop(self) {
        match self {
            Self::Plain(_plain) => {}
            Self::ListOf(_items) => {}
            Self::Broken(_text) => {}
            Self::YourExport(_) => {}
            Self::YourAnswer(_) => {}
            Self::MyExport(_) => {}
            Self::MyPromise(_) => {}
            Self::Third { host: _, swiss: _ } => {}
            Self::MyAnswer(_) => {}
        }
    }
}

/// What a promise came to.
pub enum Resolved {
    To(Desc),
    /// An object of another vat than the two.
    Elsewhere(VatId),
}

impl Drop for Resolved {
    fn drop(self) {
        match self {
            Self::To(_desc) => {}
            Self::Elsewhere(_) => {}
        }
    }
}

/// What one vat sends another.
pub enum Op {
    /// A message, and the question whose answer it asks for. It has at most 255 arguments.
    Deliver {
        question: u64,
        target: Desc,
        verb: Str,
        args: Seq<Desc>,
    },
    /// What a promise of the sender came to.
    Resolve {
        subject: Desc,
        to: Resolved,
    },
    /// The gift under this swiss number is the target.
    Provide {
        target: Desc,
        swiss: u128,
    },
    /// Asks for the gift under this provider and swiss number.
    Accept {
        question: u64,
        provider: VatId,
        swiss: u128,
    },
    /// The gift under this swiss number, at the vat where the subject came to be, is what it came to.
    Shorten {
        subject: Desc,
        swiss: u128,
    },
    /// A message that asks for no answer. It has at most 255 arguments.
    DeliverOnly {
        target: Desc,
        verb: Str,
        args: Seq<Desc>,
    },
}

impl Drop for Op {
    fn drop(self) {
        match self {
            Self::Deliver {
                question: _,
                target: _target,
                verb: _verb,
                args: _args,
            } => {}
            Self::Resolve {
                subject: _subject,
                to: _to,
            } => {}
            Self::Provide {
                target: _target,
                swiss: _,
            } => {}
            Self::Accept {
                question: _,
                provider: _,
                swiss: _,
            } => {}
            Self::Shorten {
                subject: _subject,
                swiss: _,
            } => {}
            Self::DeliverOnly {
                target: _target,
                verb: _verb,
                args: _args,
            } => {}
        }
    }
}
