//! References as they stand in a trace.

use ev_base::Name;

/// The number of a vat, where there is one, and a name as it prints there.
#[derive(Clone, Copy, PartialEq, Eq, Hash)]
pub struct Reference {
    pub vat: Option<u8>,
    pub name: Name,
}
