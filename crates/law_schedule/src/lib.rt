//! Scripts that are read, as the machine's scripts, and what the schedule is of one of no vat.
#![tactic(auto)]

ghost use Rattle.law_schedule.specs.Schedules.{NoVatTakesNone};

/// A script of no vat has no entry.
pub fn no_vat_takes_none()
    ensures { NoVatTakesNone }
{}
