//! The names of things and of messages that no vat shares with another.

use crate::ids::VatId;

/// A message, by the vat that sent it and its number there. Sends and reactions of a vat are counted together, from 0.
#[derive(Clone, Copy, PartialEq, Eq, Hash)]
pub struct Msg {
    pub sender: VatId,
    pub number: u64,
}

/// A global name. Each has one host: the vat that it begins with.
#[derive(Clone, Copy, PartialEq, Eq, Hash)]
pub enum Name {
    /// `v.n`, an object, ejector, resolver or audition of a vat, by its number there.
    Object(VatId, u64),
    /// `v~n`, a promise that a vat made by `Ref.promise()`, by its number there.
    Own(VatId, u64),
    /// `h?m`, the answer of a message at its host.
    Answer(VatId, Msg),
    /// `h^i`, the gift at its host under the swiss number of a draw.
    Gift(VatId, u64),
    /// `@v`, the root of a vat.
    Root(VatId),
    /// `c^p:HEX`, the gift at its host of that provider under a number that a hostile vat named first.
    Claimed(VatId, VatId, u128),
}
