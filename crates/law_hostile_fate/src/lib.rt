//! Fates of messages in runs with hostile vats: no frame of bytes makes a message be delivered twice.
#![tactic(auto)]

ghost use Rattle.law_hostile_fate.specs.Fates.{NoFrameDoubles, OneFateAtMostWithFrames};

/// In each configuration of a run in which some vat is hostile the places of a message, its takes and losses, and its arrivals at hostile
/// vats are together no more than its sends and the times that a frame brought it; and of these there is one at most.
///
/// So whatever an adversary sends, no message stands in two places, is taken twice, or is taken once it was lost. Nothing is asked of the
/// script or of the frames.
pub fn no_frame_doubles()
    ensures { NoFrameDoubles }
{}

/// In the lines of a whole run with hostile vats, with its closing list, or of one that stopped, a message has one at most of: one take, one
/// lost line, one arrival at a hostile vat, one place in the closing list; and none where it was neither sent nor brought by a frame.
pub fn one_fate_at_most_with_frames()
    ensures { OneFateAtMostWithFrames }
{}
