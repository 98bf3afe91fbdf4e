//! What is told of a step is what the machine shows of it.

ghost use Rattle.ev_resident.specs.Printing.{LinesAreShown, NotesAreShown};
ghost use Rattle.ev_resident.specs.Rows.{NamesByWhatIsTold, NoMessageNoName};
ghost use Rattle.ev_resident.specs.NamesStanding.{PrintedNamesStay};

/// Where a table has the names that a vat's numbers stand for, as they are printed, the lines that `push_lines` of `ev_step_lines` tells of
/// a step are those that the machine shows of it, a message that is lost on a cut link in its place among them.
pub fn lines_are_shown()
    ensures { LinesAreShown }
{}

/// What `shown_note` makes of a note is what the machine shows of it.
pub fn notes_are_shown()
    ensures { NotesAreShown }
{}

/// A table that has a vat's names has them as well when more words were drawn, where the word of each gift among them was drawn before.
pub fn printed_names_stay()
    ensures { PrintedNamesStay }
{}

/// A number of which an answer was told has that name, whatever is told later, and one of which nothing was told is the next promise.
#[tactic(auto, unfolding(crate::specs::Rows::opened_rows))]
pub fn names_by_what_is_told()
    ensures { NamesByWhatIsTold }
{}

/// The answer of a message that is not there has the name that the machine gives it.
#[tactic(auto, unfolding(crate::specs::Rows::opened_rows))]
pub fn no_message_no_name()
    ensures { NoMessageNoName }
{}
