//! Gifts at their host: they keep their place and stay opened, and those that a notice broke stay broken.

ghost use Rattle.law_reference.specs.Gift.Gifts.{GiftsStay, GiftsStayInRuns, NoticesBreakForGood};

/// A gift keeps its place among the gifts of its host, its name, its provider and its key; and once it was opened it stays opened. Said of every step, under global names and under local numbers.
pub fn gifts_stay()
    ensures { GiftsStay }
{}

/// So it is in a run, from any world on.
pub fn gifts_stay_in_runs()
    ensures { GiftsStayInRuns }
{}

/// From the first notice of a vat on, in every later world: each name of that host that waited at the notice is broken, and each gift of that provider that was not opened and waited.
/// So is each gift of that provider that was there at the notice, waited then, and is not opened in the later world.
pub fn notices_break_for_good()
    ensures { NoticesBreakForGood }
{}
