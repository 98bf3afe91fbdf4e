//! What holds of the answers to any lines.

ghost use Rattle.ev_sturdy.specs.Laws.{BrokenForGood, ReferencesAreToRegistered};

/// A reference that answered `broken` does so for good.
#[tactic(auto, using(crate::proofs::Reached::broken_for_good))]
pub fn broken_for_good()
    ensures { BrokenForGood }
{}

/// A reference is given only to an object that was registered under the digest of the number shown.
#[tactic(auto, using(crate::proofs::Reached::references_are_to_registered))]
pub fn references_are_to_registered()
    ensures { ReferencesAreToRegistered }
{}
