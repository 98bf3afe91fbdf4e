//! What holds of sturdy references whatever is done.

ghost use Rattle.ev_sturdy.specs.Past.{IsKeptByDeeds, ShowsRegistered, StaysBroken};

/// What the calls keep is what counting tells of the past.
#[tactic(auto, using(crate::proofs::Past::is_kept))]
pub fn kept_by_deeds()
    ensures { IsKeptByDeeds }
{}

/// A reference that was broken is broken for good.
#[tactic(auto, using(crate::proofs::Broken::stays_broken))]
pub fn stays_broken()
    ensures { StaysBroken }
{}

/// A number shows only an object that was registered under its digest.
pub fn shows_registered()
    ensures { ShowsRegistered }
{}
