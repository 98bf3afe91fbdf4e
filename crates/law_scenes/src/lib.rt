//! What each doing of a run with hostile vats makes of its world, and how a fact of each of them comes to hold in each configuration.
#![tactic(auto)]

ghost use Rattle.law_scenes.specs.Doings.{ScenesAreReal};

/// Each configuration to which a run with a hostile vat comes is reached by doings as the run does them: steps of honest vats, notes that
/// come to their vats, and frames that hostile vats say. Nothing is asked of the script or of the frames.
pub fn scenes_are_real()
    ensures { ScenesAreReal }
{}
