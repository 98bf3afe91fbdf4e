//! What the items of a frame are.

use ev_base::Seq;

/// What an item is.
#[derive(Clone, Copy)]
pub enum Part {
    /// The byte of an operation, `0f`, or the first byte of a description.
    Code(u8),
    /// A number below 2 ^ 64, or that of a primitive.
    Number(u64),
    Vat(u8),
    Swiss(u128),
    /// An integer, or a text with its count.
    Other,
}

/// An item, and the offset at which it begins.
#[derive(Clone, Copy)]
pub struct Spot {
    pub at: u64,
    pub part: Part,
}

/// The items of a frame that are allowed, from left to right.
pub struct Parts {
    pub spots: Seq<Spot>,
    /// The offset of the first item that is not allowed. There is none where the bytes are one whole operation.
    pub stop: Option<u64>,
}

impl Drop for Parts {
    fn drop(self) {
        let Self {
            spots: _spots,
            stop: _,
        } = self;
    }
}
