//! The carry of a frame.
//! No vat of the script may be told twice that it knows a vat, or that it knows itself, and each notice
//! stands behind a cut of the same two vats.

ghost use Rattle.law_frame.specs.Local.Carrying.{CarriesMirror};

/// The carry of a frame leads where the carry of its note does, from all that stands for the world that it finds: both runs go on and stand for
/// one another again, both stop in the same step for the same reason, or both do nothing.
pub fn carries_mirror()
    ensures { CarriesMirror }
{}
