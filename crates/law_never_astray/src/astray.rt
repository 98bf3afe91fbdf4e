//! Steps that do not go astray.

ghost use Rattle.law_never_astray.specs.Settlings.{SettlingsEnd};
ghost use Rattle.law_never_astray.specs.Ejections.{EjectionsAreAwaited, EjectionsAreAwaitedInRuns};
ghost use Rattle.law_never_astray.specs.Arrivals.{ArrivalsAreNotAstray};

/// A settling does not go astray, in every state in which each name that waits and each answer of a message that is
/// held is known there, or is named as no answer will be: the settlings inside it are of such names, each of which
/// has not settled yet, so its depth is not used up.
pub fn settlings_end()
    ensures { SettlingsEnd }
{}

/// In no world of a run does an arrival, a cut, or the notice of one at a vat that is there go astray. No vat of
/// the script may be told twice that it knows a vat, or that it knows itself.
pub fn arrivals_are_not_astray()
    ensures { ArrivalsAreNotAstray }
{}

/// No turn is left by an ejector: from a state in which none is live, what leaves by one in the evaluation of a
/// program or in a turn's message leaves to an escape, a match or a matcher that stands in it. None is live after.
pub fn ejections_are_awaited()
    ensures { EjectionsAreAwaited }
{}

/// So no turn of a run is left by an ejector: in every world, after any of the opening turns and after any entries of a
/// schedule, what a vat evaluates then leaves by ejectors of its own turn alone. This asks nothing of the script.
pub fn ejections_are_awaited_in_runs()
    ensures { EjectionsAreAwaitedInRuns }
{}
