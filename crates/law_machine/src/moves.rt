//! The moves of a world with hostile vats, and the worlds that they reach.

ghost use Rattle.law_machine.specs.Run.Moves.{HonestMovesAreTold, HonestRunsAreReached};

/// Every world of a run of a script is reached by moves with no hostile vat.
pub fn honest_runs_are_reached()
    ensures { HonestRunsAreReached }
{}

/// A move of honest vats is nothing, a cut, a note that leaves its link, or a step of one vat.
pub fn honest_moves_are_told()
    ensures { HonestMovesAreTold }
{}
