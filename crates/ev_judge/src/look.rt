//! What a judge knows at an item of a frame.

use ev_base::VatId;

/// Who judges: its number, and how many vats there are.
#[derive(Clone, Copy)]
pub(crate) struct Receiver {
    pub vats: u8,
    pub me: VatId,
}

/// What is known at an item, beside how many are in front of it.
#[derive(Drop)]
pub(crate) struct Look {
    /// The byte of the operation.
    pub op: u8,
    /// The byte that stands right in front, if one does.
    pub code: Option<u8>,
    /// The new positions so far: whether each is an object.
    pub gathered: Vec<bool>,
}
