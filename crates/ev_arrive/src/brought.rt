//! What notes bring.

use crate::host::{Carried, Incoming, Subject};
use ev_base::{Value, VatId, Word};
use ev_pass::Swiss;

/// A value as it arrives.
pub enum Brought {
    /// Data, or a name that the vat knows.
    Plain(Value),
    /// A name that the vat comes to know, of that vat.
    New(VatId),
    /// A gift at that vat, which the sender provides under that word.
    Gift(VatId, u128),
    /// A list, by its members.
    List(Vec<Brought>),
}

impl Drop for Brought {
    fn drop(self) {
        match self {
            Self::Plain(_) => {}
            Self::New(_) => {}
            Self::Gift(_, _) => {}
            Self::List(_items) => {}
        }
    }
}

/// What another vat tells this one, in this vat's numbers.
#[derive(Drop)]
pub enum Heard {
    /// A message, and whether it asks for an answer.
    Deliver {
        message: Carried,
        asks: bool,
        target: Incoming,
        verb: Word,
        args: Vec<Brought>,
    },
    /// The sender's gift under that word is this.
    Open(u128, Incoming),
    /// The gift of that provider under that word is asked for.
    Ask(VatId, u128),
    /// A name settled to that.
    Settled(Subject, Brought),
    /// A name settled to an object of that vat.
    Elsewhere(Subject, VatId),
    /// The object that the name settled to is wanted as a gift, which this vat is to provide.
    Shorten(Incoming, Swiss),
}
