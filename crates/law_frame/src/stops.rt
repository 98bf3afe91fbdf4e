//! A step that stops in the one machine stops so in the numbers of the vat whose step it is. With the laws of
//! the steps that go on (`law_frame`) each step of a run has its counterpart in numbers, the last one too.
//! No vat of the script may be told twice that it knows a vat, or that it knows itself; but for opening turns
//! each notice stands behind a cut of the same two vats. stops_are_of_vats asks neither.

ghost use Rattle.law_frame.specs.Stopping.Stops.{StopsByNumbers, StopsAreOfVats, StopsAreTakenInNumbers, StopsInNumbersStop, StoppedRunsByNumbers, OpeningStopsInNumbersStop, OpeningTurnsStopByNumbers};

/// Where an entry stops the run, the vat whose step it is stops by its own numbers for the same reason, from
/// every state in numbers that stands for the one that the step finds: for want of fuel, for the depth, at a
/// word that was drawn before, and also where the machine would go astray. A note it hears by its own tables
/// first, as in a step that goes on. Every other vat takes no step.
pub fn stops_by_numbers()
    ensures { StopsByNumbers }
{}

/// So it is from the state that has each name in its place by its number, where each vat of the script knows
/// only vats of the script.
pub fn stops_are_taken_in_numbers()
    ensures { StopsAreTakenInNumbers }
{}

/// What stops in numbers stops the run, for the same reason: so a vat that keeps its own numbers stops where the
/// one machine does, and nowhere else.
pub fn stops_in_numbers_stop()
    ensures { StopsInNumbersStop }
{}

/// The vat whose step stops is there, unless the machine goes astray: a notice at a vat that the script does not
/// have does so. This asks nothing.
pub fn stops_are_of_vats()
    ensures { StopsAreOfVats }
{}

/// So each vat goes through a run that stops in its own numbers: each entry taken from what the one before it
/// left, up to the one that stops the run, and there it stops, if that is its step.
pub fn stopped_runs_by_numbers()
    ensures { StoppedRunsByNumbers }
{}

/// And so it is where an opening turn stops the run. This asks nothing of notices.
pub fn opening_turns_stop_by_numbers()
    ensures { OpeningTurnsStopByNumbers }
{}

/// Nor does an opening turn stop in numbers alone.
pub fn opening_stops_in_numbers_stop()
    ensures { OpeningStopsInNumbersStop }
{}
