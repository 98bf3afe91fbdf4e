//! What an activation knows, and which histories use no more than what is known.

ghost use Rattle.law_uses.specs.Connectivity.Activations.{ActivationsAreNew};
ghost use Rattle.law_uses.specs.Connectivity.Following.{FollowingIsTold};
ghost use Rattle.law_uses.specs.Connectivity.Liveness.{WhatIsMadeDies};
ghost use Rattle.law_uses.specs.Connectivity.Runs.{NothingLiveInRuns};
ghost use Rattle.law_uses.specs.Connectivity.Natives.{DataAddsNothing};
ghost use Rattle.law_uses.specs.Connectivity.Nesting.{CallsNest};
ghost use Rattle.law_uses.specs.Connectivity.ConnectedLaws.{AuditIsConnected, CoercingIsConnected, EscapeIsConnected, HandedIsConnected, KeptIsNotConnected, KnownIsLeast, KnownStays, LeakIsNotConnected, PartedIsNotConnected, ProgramIsConnected, RinglessIsNotConnected, StrayIsNotConnected};

/// What an activation knows is the least that initial conditions, endowment, parenthood and
/// introduction give it: what holds of all that these give holds of all that it knows.
pub fn known_is_least()
    ensures { KnownIsLeast }
{}

/// What an activation knows it knows after any further lines, and in any later state, in which
/// objects keep their captures, lists their members and slots their guards.
pub fn known_stays()
    ensures { KnownStays }
{}

/// An activation that sends on what it was handed as an argument is connected.
pub fn handed_is_connected()
    ensures { HandedIsConnected }
{}

/// An activation that sends on what its caller has, and did not hand to it, is not.
pub fn kept_is_not_connected()
    ensures { KeptIsNotConnected }
{}

/// An activation that calls to coerce the guard under which its object captured a value is connected.
pub fn coercing_is_connected()
    ensures { CoercingIsConnected }
{}

/// An activation that sends on that guard, which nobody gave to it as a value, is not.
pub fn leak_is_not_connected()
    ensures { LeakIsNotConnected }
{}

/// A history is not connected in which the answer of a turn settles to a name, where the turn gave
/// null.
pub fn stray_is_not_connected()
    ensures { StrayIsNotConnected }
{}

/// A history is not connected in which the answer of a turn breaks with `cycle`, where the turn gave an object.
pub fn ringless_is_not_connected()
    ensures { RinglessIsNotConnected }
{}

/// Nor is one in which it breaks with `partition`, where the turn gave null and the cut of some vat was noticed.
pub fn parted_is_not_connected()
    ensures { PartedIsNotConnected }
{}

/// The opening turn of a small program is connected, in which an object uses a capture, an argument
/// and what a call gave back.
pub fn program_is_connected()
    ensures { ProgramIsConnected }
{}

/// So is that of a program in which a value is read from a var slot and leaves by an ejector.
pub fn escape_is_connected()
    ensures { EscapeIsConnected }
{}

/// So is that of a program in which an auditor asks another, which is told the guard of a free name
/// of the object that is judged. Who evaluates that object may know it as a guard alone.
pub fn audit_is_connected()
    ensures { AuditIsConnected }
{}

/// In every step the calls nest: a line that tells how a call ended ends the innermost call that is
/// open, and that activation made it. A step that does not stop leaves none open.
pub fn calls_nest()
    ensures { CallsNest }
{}

/// After every step, what the vat follows a value to is what the step's lines lead it to, beside
/// what had settled before the step, or is broken.
pub fn following_is_told()
    ensures { FollowingIsTold }
{}

/// What data answers to a call holds nothing that its caller did not know: a value that it gives
/// back, the members of a list that is made, and what it calls in turn.
pub fn data_adds_nothing()
    ensures { DataAddsNothing }
{}

/// An ejector or audition that a step makes is dead when the step ends, unless the step stops.
pub fn what_is_made_live_dies()
    ensures { WhatIsMadeDies }
{}

/// In every vat of every world of a run, after any of its opening turns and after any entries of a
/// schedule, no ejector and no audition is live.
pub fn nothing_is_live_in_runs()
    ensures { NothingLiveInRuns }
{}

/// Each activation of a step is begun once: their numbers rise from the vat's count before the step
/// to its count after it.
pub fn activations_are_new()
    ensures { ActivationsAreNew }
{}
