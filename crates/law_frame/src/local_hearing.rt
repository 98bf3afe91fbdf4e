//! What a vat hears by its own numbers in a frame that is carried.
//! No vat of the script may be told twice that it knows a vat, or that it knows itself, and each notice
//! stands behind a cut of the same two vats.

ghost use Rattle.law_frame.specs.Local.Hearing.{FramesAreHeardByNumbers};

/// In each world of a run, and of any two vats: where the run in numbers stands for the machine's, the receiver hears the next frame on
/// a way that is not cut by its own numbers as it reads the note in names.
///
/// What comes to be known by it has the numbers behind those known before, in order; each object and promise that the frame tells first has
/// the position that its sender gave it; and each gift that was learnt is that gift. The numbers are read by the names that are known once
/// the note was read, and by what others exported before.
pub fn frames_are_heard_by_numbers()
    ensures { FramesAreHeardByNumbers }
{}
