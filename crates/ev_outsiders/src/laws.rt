//! What is counted is what a run counts.

ghost use Rattle.ev_outsiders.specs.Statements.{OutsidersStart};

/// `Outsiders::new` is what a run has of its vats at the start.
pub fn outsiders_start()
    ensures { OutsidersStart }
{}
