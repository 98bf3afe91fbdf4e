//! A worked run in which vats are told of names of other vats.

ghost use Rattle.law_order.specs.Arrivals.Example.{NotesTell, ViewsWait};

/// What two notes tell is so at their senders, by computing: a settled note tells of a name that leads there to the
/// queue, and an elsewhere note of one that leads there over the link to that vat.
#[tactic(auto, unfolding(crate::specs::Arrivals::Example::opened_told))]
pub fn notes_tell()
    ensures { NotesTell }
{}

/// As the second of them arrives the name leads to a gift, and what waits for the gift at its host is behind what
/// was sent on the name before, by computing.
#[tactic(auto, unfolding(crate::specs::Arrivals::Example::opened_told))]
pub fn views_wait()
    ensures { ViewsWait }
{}
