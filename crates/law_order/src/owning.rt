//! What a vat hosts, in every world of a run.

ghost use Rattle.law_order.specs.Runs.Owning.{OwnNamesEndInRuns, ViewedNamesAreEmpty};

/// In every world of a run each name that a vat hosts is followed there to data, to an object, or to a name that the
/// vat hosts: so it leads to other vats only as an object.
///
/// No vat of the script may be told twice that it knows a vat, or that it knows itself.
pub fn own_names_end()
    ensures { OwnNamesEndInRuns }
{}

/// In every world of a run a name with a view is of another vat than the one that knows it so: no vat is to be told of
/// it, and it holds no message.
pub fn viewed_names_are_empty()
    ensures { ViewedNamesAreEmpty }
{}
