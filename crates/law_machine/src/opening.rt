//! The opening turn of a vat that knows no other.

ghost use Rattle.law_machine.specs.Renamed.Alone.{RunsAlone};

/// Where its opening turn names nothing new, the run of the vat is that of the turn under its own numbers, with its names in their place.
pub fn runs_alone()
    ensures { RunsAlone }
{}
