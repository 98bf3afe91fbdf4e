//! What a note under way that tells of a settling tells of its sender, in every world of a run.

ghost use Rattle.law_order.specs.Runs.Telling.{ElsewhereIsTrue, ToldNamesSettled};

/// Where a note under way tells that a name settled to an object of another vat, the name settled at the sender to an
/// object of that vat.
///
/// No vat of the script may be told twice that it knows a vat, or that it knows itself.
pub fn elsewhere_is_true()
    ensures { ElsewhereIsTrue }
{}

/// Where a note under way tells what a name settled to, the name settled at the sender.
///
/// It is asked what `elsewhere_is_true` asks.
pub fn told_names_settled()
    ensures { ToldNamesSettled }
{}
