//! How often a message is carried in runs with hostile vats.
#![tactic(auto)]

ghost use Rattle.law_hostile_carry.specs.Carries.{TwoCarriesAtMostWithFrames};
ghost use Rattle.law_hostile_carry.specs.Settles.{FramesSettleWell};
ghost use Rattle.law_hostile_carry.specs.Sound.{FarObjectsAreApart, HonestVatsAreSound};

/// A frame that the judge accepts settles a name to data, to a list, or to an object, and to no promise; and its message is named as one.
pub fn frames_settle_well()
    ensures { FramesSettleWell }
{}

/// In each configuration of a run in which some vat is hostile, and in the lines of a whole run or of one that stopped, a message is carried
/// twice at most: to the host of a promise, and on to the host of the object to which that settled. No more than twice for each time that it
/// was sent or that a frame brought it, where the carry that brings it counts as one. Nothing is asked of the script or of the frames.
pub fn two_carries_at_most_with_frames()
    ensures { TwoCarriesAtMostWithFrames }
{}

/// In each configuration to which a run with a hostile vat comes, each honest vat knows no object as a name, no name there settled to a promise,
/// it tells of its own names alone and holds messages on them alone, and a name that is viewed has another host.
pub fn honest_vats_are_sound()
    ensures { HonestVatsAreSound }
{}

/// So no object of another vat is among the names that an honest vat knows: what settled to one of a vat whose cut it noticed is broken
/// there (`law_hostile_severed::severed_stays_in_plays`, `objects`), and nothing more is to be asked.
pub fn far_objects_are_apart()
    ensures { FarObjectsAreApart }
{}
