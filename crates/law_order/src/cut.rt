//! What is ahead stays ahead as links are cut.

ghost use Rattle.law_order.specs.Cuts.Cuts.{CutMessagesDoom, CutsKeep, CutsKeepInRuns, ShuttingKeeps};
ghost use Rattle.law_order.specs.Cuts.Example.{CutIsTold};

/// What is ahead stays ahead, and what is doomed stays doomed, where lanes are shut: what stood there is gone, and
/// they lead nowhere.
///
/// It holds also of messages that stood there: what they were ahead of is doomed, or they stand elsewhere too.
pub fn shutting_keeps()
    ensures { ShuttingKeeps }
{}

/// Where the links between two vats are cut, what is ahead of a reference or a message stays ahead of it, and what
/// is doomed stays doomed. Each message that is not on these links stands where it stood, behind the same.
/// What stood on them is gone, and all that comes there is doomed.
///
/// It asks that at most one note under way lets each gift go, and that each note under way was logged.
pub fn cuts_keep()
    ensures { CutsKeep }
{}

/// So it is with each cut in every run.
pub fn cuts_keep_in_runs()
    ensures { CutsKeepInRuns }
{}

/// A message that a cut lost, and that stands nowhere then, dooms what it was ahead of: each place in front of which
/// it does not stand, and so each reference of each vat and each message that is left.
pub fn cut_messages_doom()
    ensures { CutMessagesDoom }
{}

/// A cut by computing: one note under way lets a gift go, for which a message waits at the gift's host. Once its link is
/// cut no such note is left; the message in front of it is nowhere, and what waits for the gift leads nowhere.
#[tactic(auto, unfolding(crate::specs::Cuts::Example::opened_cut))]
pub fn cuts_are_told()
    ensures { CutIsTold }
{}
