//! References in every run: tables, answers, lists, waits, and gifts at their host.
#![tactic(auto)]

pub mod answers;
pub mod apart;
pub mod gifts;
pub mod hosted_gifts;
pub mod lists;
pub mod rest;
pub mod tables;
pub mod unopened;
pub mod waits;

ghost use Rattle.law_reference.specs.OwnWaits.Waits.{WaitsAreOwnInRuns};

// Gift.

// Own waits.

/// In every world of a run a name that waits on another, at a vat, is one that the vat hosts. So a name of another vat is
/// unsettled there, has a view, or settled.
///
/// No vat of the script may be told twice that it knows a vat, or that it knows itself.
pub fn waits_are_own()
    ensures { WaitsAreOwnInRuns }
{}
