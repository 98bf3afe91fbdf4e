//! What a line of a history is about.

use ev_base::{Msg, Name, VatId};

/// Something that a line is about. A place is the number of a vat from 1 on, or 0 for none.
#[derive(Clone, Copy, PartialEq, Eq, Hash)]
pub enum Mark {
    /// A step begins.
    Step,
    /// The message is sent, or carried.
    Moved(Msg),
    /// The message is taken.
    Taken(Msg),
    /// The name settles at the place.
    Settled(u64, Name),
    /// A note came to the place that says what the name settled to.
    Told(u64, Name),
    /// The name waits on another at the place, or has a view there.
    Led(u64, Name),
    /// The object, ejector, resolver, audition or promise is made.
    Made(Name),
    /// The list is made, or arrives.
    List(VatId, u64),
    /// The var slot is made, or written.
    Slot(VatId, u64),
    /// A call that begins no activation hands on the name at the place.
    Handed(u64, Name),
    /// The same of a list, by its vat and its number there.
    HandedList(u64, VatId, u64),
}
