//! Gifts at their host that were not opened: what settles none of them, and what breaks them.

ghost use Rattle.law_reference.specs.Gift.Unopened.{UnopenedGiftsRest, UnopenedGiftsBreak};

/// In each vat of every world of a run, a gift that was not opened for the vat did not settle, and waits on no other name and is viewed as none; or it settled to a broken reference.
/// So nothing but its opening settles a gift, and what breaks it.
/// No vat of the script may be told twice that it knows a vat, or that it knows itself.
pub fn unopened_gifts_rest()
    ensures { UnopenedGiftsRest }
{}

/// From the first notice of a vat on, in every later world: each gift of that provider that was not opened at the notice is broken at its host.
/// It says nothing of gifts that come to be after the notice.
/// No vat of the script may be told twice that it knows a vat, or that it knows itself.
pub fn notices_break_unopened_gifts()
    ensures { UnopenedGiftsBreak }
{}
