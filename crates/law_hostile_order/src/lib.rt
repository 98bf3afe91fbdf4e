//! E-order in runs with hostile vats: which message is before which, where references may be led astray.
#![tactic(auto)]

ghost use Rattle.law_hostile_order.specs.Honest.{HonestPlaysAreOrdered};
ghost use Rattle.law_hostile_order.specs.Strays.{HostileVatsLeadAstray, StrayingsNeedHostileVats};

/// Where no vat is hostile no reference strays: of any history, and any two messages, order with an empty list of hostile vats is the
/// order of the runs of honest vats (`law_order::Ordered`).
pub fn strayings_need_hostile_vats()
    ensures { StrayingsNeedHostileVats }
{}

/// By computing: a hostile vat that introduces a third lets one message overtake another on one reference of an honest vat. The first
/// was sent on a name that the vat then followed to the hostile one's, and from there on to the third: from then on it is before nothing.
#[tactic(auto, unfolding(crate::specs::Strays::opened_strays))]
pub fn hostile_vats_lead_astray()
    ensures { HostileVatsLeadAstray }
{}

/// What a play without hostile vats tells is in order, to its end or to where it stops. Asked of its script is what each script has that
/// is read.
pub fn honest_plays_are_ordered()
    ensures { HonestPlaysAreOrdered }
{}
