//! Values as a vat holds them.

use crate::ids::{ListId, ObjId, PrimId, PromId, TextId, VatId};

/// A value, with the numbers that its vat gives to texts, lists, objects and promises.
#[derive(Clone, Copy, PartialEq, Eq)]
pub enum Value {
    Null,
    Bool(bool),
    Int(i128),
    Char(char),
    Text(TextId),
    List(ListId),
    /// A primitive of the safe scope.
    Prim(PrimId),
    /// An object, ejector, resolver or audition of this vat.
    Obj(ObjId),
    /// A promise, of this vat or another.
    Prom(PromId),
    /// An object of another vat, by its position among those that came from there.
    Far(VatId, u64),
    /// A broken reference, with its problem.
    Broken(TextId),
}
