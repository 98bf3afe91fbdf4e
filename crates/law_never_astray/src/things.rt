//! What a vat names is there, by the numbers of the things of its vat.

ghost use Rattle.law_never_astray.specs.Objects.{ObjectsAreThere, ThingsAreThereInRuns};
ghost use Rattle.law_never_astray.specs.Things.{ThingsStayThere};

/// Evaluation names no object of its vat that is not there. Where each object of its own that a vat names in what it
/// has, and in what it is given, has a number below the count of its things, so it is in what it has and gives after an
/// opening turn's evaluation or a turn's message, but for a stop.
pub fn things_stay_there()
    ensures { ThingsStayThere }
{}

/// In every world of a run, after any of the opening turns and after any entries of a schedule, each object that a vat
/// names in what it has, and each that a note under way names, is one of the things of its vat. This asks nothing of
/// the script.
pub fn objects_are_there()
    ensures { ObjectsAreThere }
{}

/// So in every world of a run each vat is in a state from which its evaluation names no object of its own that is not
/// there.
pub fn things_are_there_in_runs()
    ensures { ThingsAreThereInRuns }
{}
