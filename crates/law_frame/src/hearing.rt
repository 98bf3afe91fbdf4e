//! By the connections of a world the receiver of the next note hears that note.
//!
//! But where more is told, the laws hold in every world of every run in which each notice stands behind a cut of the same two vats, of any
//! two vats of it and of a link from one to the other that is not cut. No vat of the script may be told twice that it
//! knows a vat, or that it knows itself.

ghost use Rattle.law_frame.specs.Heard.Exported.{ExportsAreAsLogged};
ghost use Rattle.law_frame.specs.Heard.Questions.{QuestionsAreAsLogged};
ghost use Rattle.law_frame.specs.Heard.Hearing.{FramesAreHeardByGifts, ListsAreAsLogged, NextFramesAreHeard, NotesAreNumbered};

/// The lists of a connection are those that all notes ever put on the link tell: what the sender has of its exports and
/// questions is what it first told and asked for in them, and what the receiver has is that as far as they have arrived.
///
/// The order in which notes are put and arrive between the two does not matter for it: no vat tells a name of its own to
/// one that asked for it before that asking has arrived.
pub fn lists_are_as_logged()
    ensures { ListsAreAsLogged }
{}

/// What a vat has of its questions to another is what it ever asked it for, on a cut link too: in every world that is
/// reached, whichever vats are hostile and whatever they say.
pub fn questions_are_as_logged()
    ensures { QuestionsAreAsLogged }
{}

/// What a vat has of its exports to another is what all notes tell that it ever put there, on a cut link too: of any two vats, in every world
/// of a run, also among the opening turns.
///
/// For what was asked for on a link and lost there is told by nobody: a message that was lost has no place any more, so its answer comes to be
/// known nowhere; and a gift that was asked for is in no other vat's hands.
pub fn exports_are_as_logged()
    ensures { ExportsAreAsLogged }
{}

/// Each name of the receiver in a note under way was asked of it by the sender, or stands among what the receiver exported
/// to the sender, as far as that has arrived. And no vat tells a name of its own to one that asked for it before that
/// asking has arrived.
pub fn notes_are_numbered()
    ensures { NotesAreNumbered }
{}

/// The receiver of the next note reads its frame, by its own lists and those of the sender, as the note is read in names,
/// but for what no receiver looks at. Then it has by position what the sender exported to it in the notes that have
/// arrived and in this one, and knows as many names as are known once the note was read in names.
///
/// It is said of any gifts that the receiver learnt before, where none of them passes in the note again.
pub fn next_frames_are_heard()
    ensures { NextFramesAreHeard }
{}

/// So the next frame is heard by any gifts that the receiver knows: none of them passes in the note.
pub fn frames_are_heard_by_gifts()
    ensures { FramesAreHeardByGifts }
{}
