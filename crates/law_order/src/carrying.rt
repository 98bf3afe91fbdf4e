//! What is ahead of what as a message is carried, in every run.

ghost use Rattle.law_order.specs.Runs.Carrying.{MessageCarriesKeepInRuns};

/// In every run, as an entry carries a message from one honest vat to another, what is ahead of a reference or of a
/// message stays ahead of it, and what is doomed stays doomed. The message comes last to where its target leads, behind
/// all that was ahead of it; or it stands nowhere then, as it was lost or came on data. Where it goes on to a vat that is
/// not honest, what is ahead stays ahead but for the message itself.
///
/// Left out is one case: the target leads on over a link that is not there. No vat of the script may be told twice that
/// it knows a vat, or that it knows itself.
pub fn message_carries_keep_in_runs()
    ensures { MessageCarriesKeepInRuns }
{}
