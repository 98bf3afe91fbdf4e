//! The queues that are kept are those of the run in numbers.

ghost use Rattle.ev_injected.specs.Statements.{StartsAreFresh};

/// `Injected::new` is what a run has of injected frames at its start.
pub fn starts_are_fresh()
    ensures { StartsAreFresh }
{}
