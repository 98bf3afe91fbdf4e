//! What is asked of the lines of worked histories, by computing.
#![tactic(auto)]

ghost use Rattle.test_why.specs.Rows.{BeliefsAreJudged, HonestIsLetThrough, MessagesAreTakenOnce, NamesSettleOnce, NotesAreJudged, ThingsAreMadeOnce};

/// An honest history has no refusal.
#[tactic(auto, unfolding(crate::specs::Rows::opened_rows))]
pub fn honest_is_let_through()
    ensures { HonestIsLetThrough }
{}

/// A message that is taken again, or where it was not carried to.
#[tactic(auto, unfolding(crate::specs::Rows::opened_rows))]
pub fn messages_are_taken_once()
    ensures { MessagesAreTakenOnce }
{}

/// A name that settles again at its vat, and one that settles at two vats.
#[tactic(auto, unfolding(crate::specs::Rows::opened_rows))]
pub fn names_settle_once()
    ensures { NamesSettleOnce }
{}

/// Forged lines: what a slot held, what an ejector gave, a list that came, a message that nobody sent.
#[tactic(auto, unfolding(crate::specs::Rows::opened_rows))]
pub fn beliefs_are_judged()
    ensures { BeliefsAreJudged }
{}

/// Forged notes: another verb, other data, news that the host did not give.
#[tactic(auto, unfolding(crate::specs::Rows::opened_rows))]
pub fn notes_are_judged()
    ensures { NotesAreJudged }
{}

/// What is made again, or by another vat.
#[tactic(auto, unfolding(crate::specs::Rows::opened_rows))]
pub fn things_are_made_once()
    ensures { ThingsAreMadeOnce }
{}
