//! References hold what they were given: each act leaves a vat whose references hold values of one kind as such a vat, and where the
//! heap has the texts of these, none is missing.

ghost use Rattle.law_evaluation.specs.Acts.Statements.{FinishesInside, FollowsInside, ForwardsInside, PassesInside, ResolvesInside, SendsInside, SendsOnlyInside, SettlesInside, SmashesInside, TellsInside, ThrowsInside, WhensInside};

/// What a value is followed to is of the kind.
#[tactic(auto, using(crate::proofs::Acts::Follows::follows))]
pub fn follows_inside()
    ensures { FollowsInside }
{}

/// A value passes to another vat (`Interior::pass`).
#[tactic(auto, using(crate::proofs::Acts::Passes::passes))]
pub fn passes_inside()
    ensures { PassesInside }
{}

/// A name settles (`settle`).
#[tactic(auto, using(crate::proofs::Acts::Settles::settles))]
pub fn settles_inside()
    ensures { SettlesInside }
{}

/// A name resolves to a value (`resolve`).
#[tactic(auto, using(crate::proofs::Acts::Sends::resolves))]
pub fn resolves_inside()
    ensures { ResolvesInside }
{}

/// A message is sent on (`forward`).
#[tactic(auto, using(crate::proofs::Acts::Settles::forwards))]
pub fn forwards_inside()
    ensures { ForwardsInside }
{}

/// A message is sent that asks for an answer (`send`).
#[tactic(auto, using(crate::proofs::Acts::Sends::sends))]
pub fn sends_inside()
    ensures { SendsInside }
{}

/// One that asks for none (`send_only`).
#[tactic(auto, using(crate::proofs::Acts::Sends::sends_only))]
pub fn sends_only_inside()
    ensures { SendsOnlyInside }
{}

/// An object is to react on a value (`when`).
#[tactic(auto, using(crate::proofs::Acts::Sends::whens))]
pub fn whens_inside()
    ensures { WhensInside }
{}

/// A resolver is told a value (`tell_resolver`).
#[tactic(auto, using(crate::proofs::Acts::Sends::tells))]
pub fn tells_inside()
    ensures { TellsInside }
{}

/// Or a problem (`smash_resolver`).
#[tactic(auto, using(crate::proofs::Acts::Sends::smashes))]
pub fn smashes_inside()
    ensures { SmashesInside }
{}

/// A turn ends with a value (`finish`).
#[tactic(auto, using(crate::proofs::Acts::Sends::finishes))]
pub fn finishes_inside()
    ensures { FinishesInside }
{}

/// A turn ends with a problem (`throw`).
#[tactic(auto, using(crate::proofs::Acts::Sends::throws))]
pub fn throws_inside()
    ensures { ThrowsInside }
{}
