//! Values as the lines of a history print them.

use ev_base::{Name, PrimId, Seq, Str, VatId};

/// A value by its global names. A list of a vat is named by its number there, and the members of a list in a note are
/// written out.
pub enum Shown {
    Null,
    Bool(bool),
    Int(i128),
    Char(char),
    Text(Str),
    /// A broken reference, with its problem.
    Broken(Str),
    /// A primitive of the safe scope.
    Prim(PrimId),
    /// `v%n`, a list by the vat that made it and its number there.
    List(VatId, u64),
    /// `v&n`, a var slot by its vat and its number there.
    Slot(VatId, u64),
    /// An object or a promise.
    Name(Name),
    /// A list in a note, by its members.
    Members(Seq<Shown>),
}

impl Drop for Shown {
    fn drop(self) {
        match self {
            Self::Null => {}
            Self::Bool(_) => {}
            Self::Int(_) => {}
            Self::Char(_) => {}
            Self::Text(_text) => {}
            Self::Broken(_text) => {}
            Self::Prim(_) => {}
            Self::List(_, _) => {}
            Self::Slot(_, _) => {}
            Self::Name(_) => {}
            Self::Members(_items) => {}
        }
    }
}
