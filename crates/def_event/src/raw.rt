//! What happens to frames that a script injects.

use ev_base::{Seq, VatId};

/// A line about an injected frame.
pub enum RawLine {
    /// `K inject V W HEX`
    Inject(u64, VatId, VatId, Seq<u8>),
    /// `K inject V W cut`: the link is cut, and nothing is put.
    InjectCut(u64, VatId, VatId),
    /// `K carry V W malformed OFFSET`
    Malformed(u64, VatId, VatId, u64),
    /// `K carry V W bytes HEX`: it comes to a hostile vat, which does not judge it.
    Bytes(u64, VatId, VatId, Seq<u8>),
    /// `left link V W bytes HEX`
    LeftBytes(VatId, VatId, Seq<u8>),
}

impl Drop for RawLine {
    fn drop(self) {
        match self {
            Self::Inject(_, _, _, _bytes) => {}
            Self::InjectCut(_, _, _) => {}
            Self::Malformed(_, _, _, _) => {}
            Self::Bytes(_, _, _, _bytes) => {}
            Self::LeftBytes(_, _, _bytes) => {}
        }
    }
}
