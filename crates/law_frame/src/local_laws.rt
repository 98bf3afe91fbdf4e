//! What each step of the run in numbers keeps, where that run mirrors the machine's.
//! No vat of the script may be told twice that it knows a vat, or that it knows itself; but for
//! runs_are_shown_steadily each notice stands behind a cut of the same two vats.

ghost use Rattle.law_frame.specs.Steady.Statements.{EachAsksOnce, LawfulRunsAreSteady, RunsAreShownSteadily, RunsAreSteady, RunsAreSteadyWhereTheyAskAnew};

/// What was told, the names that vats know and the notes under way show the same by the draws after a step as by those before it.
pub fn runs_are_shown_steadily()
    ensures { RunsAreShownSteadily }
{}

/// Where each step of a run in numbers asks for what is new, the run is as its code asks: a vat sees what has a number as it did before, what
/// came to stand at positions is of other vats, what is answered is the vat's own, and what was told stays as it was told.
pub fn runs_are_steady_where_they_ask_anew()
    ensures { RunsAreSteadyWhereTheyAskAnew }
{}

/// In each world of a run a vat asked another once for a name, and for none that this one had told it, be the two cut off from one another or
/// not: what the notes of a step ask for came to be known to the vat in that step, each name once.
///
/// The notices of the run stand behind cuts of the same two vats. No vat of the script may be told twice that it knows a vat, or that it
/// knows itself.
pub fn a_vat_asks_another_once()
    ensures { EachAsksOnce }
{}

/// So each step asks for what is new, and the run is as its code asks, where each vat of the script knows only vats of the script.
pub fn runs_are_steady()
    ensures { RunsAreSteady }
{}

/// And so it is of each lawful script, since each step of its run in numbers mirrors the machine's.
///
/// No vat of the script may be told twice that it knows a vat, or that it knows itself; each notice stands behind a cut of the same two
/// vats; and each vat knows only vats of the script.
pub fn lawful_runs_are_steady()
    ensures { LawfulRunsAreSteady }
{}
