//! What holds of the names that programs are given, of every run that is owed for a script, and of the run that a summary is of.

ghost use Rattle.ev_top.specs.Given.{AreSafe};
ghost use Rattle.ev_top.specs.Headline.{EntriesDoWhatIsThere, InEveryCall, MessagesHaveOneFate, NoRunGoesAstray, RunsHoldOrder, RunsHoldUses, SeveredStaysBroken, StampedReachFrozenAlone, StepsAreKnown, StopsAsItCame, UsesAreConnected};

/// The names that programs are given are those that have a value in the machine's safe scope.
#[tactic(auto, using(crate::proofs::GivenNames::are_safe))]
pub fn given_names_are_safe()
    ensures { AreSafe }
{}

/// A summary for a number tells 28 times the number and 93 steps, where the run goes to its end.
pub fn generated_steps_are_known()
    ensures { StepsAreKnown }
{}

/// No run of a script whose programs are read goes astray.
#[tactic(auto, using(crate::proofs::Astray::no_run_goes_astray))]
pub fn no_run_goes_astray()
    ensures { NoRunGoesAstray }
{}

/// In the history of every script whose programs are read, each message is sent once at most, carried twice at most, and has one fate.
pub fn messages_have_one_fate()
    ensures { InEveryCall MessagesHaveOneFate }
{}

/// Each entry of its schedule is idle exactly where nothing is there, and else does what is.
pub fn entries_do_what_is_there()
    ensures { InEveryCall EntriesDoWhatIsThere }
{}

/// In each world of its run what DeepFrozen stamped reaches no assignable state.
pub fn stamped_reach_frozen_alone()
    ensures { InEveryCall StampedReachFrozenAlone }
{}

/// In its run an object uses a reference only by initial conditions, endowment, parenthood or introduction.
pub fn uses_are_connected()
    ensures { InEveryCall UsesAreConnected }
{}

/// So it is by the lines of its text alone, as `check` judges uses.
pub fn runs_hold_uses()
    ensures { InEveryCall RunsHoldUses }
{}

/// In its run messages are taken in the order in which they were sent, also on a reference that was handed on.
pub fn runs_hold_order()
    ensures { InEveryCall RunsHoldOrder }
{}

/// In its run a notice severs, and a reference that is broken or severed by a partition stays so.
pub fn severed_stays_broken()
    ensures { InEveryCall SeveredStaysBroken }
{}

/// Where its run stops, what is left of it is what it came to before the step that stopped.
pub fn stops_as_it_came()
    ensures { InEveryCall StopsAsItCame }
{}
