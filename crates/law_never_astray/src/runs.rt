//! What no run of accepted programs meets, and what each vat is to take.

ghost use Rattle.law_never_astray.specs.Near.{TargetsAreNearInRuns};
ghost use Rattle.law_never_astray.specs.Runs.{NeverAstray, NoticersAreNeeded};

/// The run of a script whose programs were accepted does not stop as `Astray`, whatever its fuel and its greatest depth: no
/// opening turn does, no turn, and no arrival, cut or notice. Such a run comes to its end, or it stops for want of fuel or
/// of depth or for another cause that the machine names. It asks that no vat is told twice that it knows a vat, or that it
/// knows itself; and that each notice in its schedule is one of a vat of the script, behind a cut of the same two vats.
pub fn no_run_goes_astray()
    ensures { NeverAstray }
{}

/// It is needed that notices are of vats of the script: where there is none, a notice behind its cut goes astray.
pub fn noticers_are_needed()
    ensures { NoticersAreNeeded }
{}

/// In every world of a run of accepted programs what a vat is to take is on data or on an object of its own: so is the target
/// of each message that waits in its queue, and that of each reaction on a name. It asks that no vat is told twice that it
/// knows a vat, or that it knows itself.
pub fn targets_are_near_in_runs()
    ensures { TargetsAreNearInRuns }
{}
