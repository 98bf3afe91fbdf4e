//! What is asked of the lines of a history, and what is told of a line that fails.

use ev_base::{Msg, Name, VatId};

/// What is asked of each line.
#[derive(Clone, Copy, PartialEq, Eq)]
pub enum Question {
    /// Each message is taken once, and only where it was carried to.
    Taken,
    /// Each name settles once at a vat.
    Settled,
    /// What is believed else holds too.
    Strict,
}

/// The point that fails.
#[derive(Clone, Copy, PartialEq, Eq)]
pub enum Reason {
    TakenAgain,
    TakenElsewhere,
    SettledAgain,
    NotSent,
    CarriedElsewhere,
    OtherVerb,
    OtherData,
    SentAgain,
    NotOfItsVat,
    OtherAnswer,
    MadeAgain,
    SlotNotMade,
    SlotUnknown,
    ReadOtherwise,
    CameInNoNote,
    NotHanded,
    NotItsHost,
    ToldUnsettled,
    ToldOtherwise,
    SettledUntold,
}

/// What the point fails of.
#[derive(Clone, Copy, PartialEq, Eq)]
pub enum About {
    Message(Msg),
    Name(Name),
    /// A list, by its vat and its number there.
    List(VatId, u64),
    /// A var slot, by its vat and its number there.
    Slot(VatId, u64),
}

/// A point that fails, and of what.
#[derive(Clone, Copy, PartialEq, Eq)]
pub struct Fault {
    pub reason: Reason,
    pub about: About,
}

/// The first line that fails, counted from 1, and how.
#[derive(Clone, Copy, PartialEq, Eq)]
pub struct Refusal {
    pub line: u64,
    pub fault: Fault,
}
