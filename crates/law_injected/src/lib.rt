//! Laws of runs in which a script injects frames: each world of one is reached by moves in which hostile vats say what their frames say.
#![tactic(auto)]

ghost use Rattle.law_injected.specs.HostileRuns.{HostileRunsAreReached, HostileRunsUndoNothing};

/// Every world of a run in which a vat is hostile is reached by moves. A lawful frame is two of them: the hostile vat says what the frame says, and then that comes as a note does.
pub fn hostile_runs_are_reached()
    ensures { HostileRunsAreReached }
{}

/// No step of such a run undoes an object, a list, a notice or a settling, in any vat.
pub fn hostile_runs_undo_nothing()
    ensures { HostileRunsUndoNothing }
{}
