//! Frozen reach in runs with hostile vats: whatever frames of bytes an adversary sends, what DeepFrozen stamped reaches no assignable state.
#![tactic(auto)]

ghost use Rattle.law_hostile_frozen.specs.Plays.{ReachIsFrozenInPlays};
ghost use Rattle.law_hostile_frozen.specs.Moves.{ReachIsFrozenInReached};

/// In every vat of every world that is reached by moves, what objects with DeepFrozen's stamp reach is frozen, whichever vats are hostile:
/// these make and learn what they like, and say any note in which no list stands by its number.
pub fn reach_is_frozen_in_reached()
    ensures { ReachIsFrozenInReached }
{}

/// In every vat of every configuration of a run in which some vat is hostile, after any of the opening turns, after any entries and injected
/// frames, and at the end, what objects with DeepFrozen's stamp reach is frozen. Nothing is asked of the script or of the frames.
pub fn reach_is_frozen_in_plays()
    ensures { ReachIsFrozenInPlays }
{}
