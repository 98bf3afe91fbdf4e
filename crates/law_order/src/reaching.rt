//! Of whom names are, and over which links references lead, where each vat knows only vats of the script.

ghost use Rattle.law_order.specs.Runs.Reaching.{CarriesKeepInClosedRuns, LinksAreThere, NamesAreOfVats};

/// In every world of a run each name that a vat knows, and the target of each message under way, is of a vat of the
/// script.
///
/// Each vat may know only vats of the script, and none may be told twice that it knows a vat, or that it knows itself.
pub fn names_are_of_vats()
    ensures { NamesAreOfVats }
{}

/// In every world of a run, where a name of a vat of the script leads over a link, that link is there.
///
/// It is asked what `names_are_of_vats` asks.
pub fn links_are_there()
    ensures { LinksAreThere }
{}

/// In every run, as an entry carries a message from one honest vat to another, order is kept, as
/// `message_carries_keep_in_runs` has it: whatever the message asks for and brings, and wherever it goes on.
///
/// It is asked what `names_are_of_vats` asks.
pub fn carries_keep_in_closed_runs()
    ensures { CarriesKeepInClosedRuns }
{}
