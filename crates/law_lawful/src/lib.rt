//! Laws of what the frames of hostile vats say, and of the tables of connections, in runs in which frames are injected.
//! They ask nothing of the script, and nothing of any frame.
#![tactic(auto)]

ghost use Rattle.law_lawful.specs.Halted.{NextStepsStop, StopsLeaveWhatWas};
ghost use Rattle.law_lawful.specs.Lawful.{NamesWereMade, NotesNameTheirEnds, NotesNameWhatWasMade, QuestionsAreAsLogged, RunsAreLawful, TablesNameTheirEnds, ThirdsAreNeeded};
ghost use Rattle.law_lawful.specs.Lawful.{WhatAnHonestVatHasIsItsOwn, WhatIsSpokenIsBetween, WhatIsSpokenIsKnown};

/// Each promise that an honest vat names was made by its host, and each answer is of a message that its sender made. Of
/// gifts nothing is said.
pub fn names_were_made()
    ensures { NamesWereMade }
{}

/// An honest vat hosts the answers of the messages that it has, the gifts that it has, and each name of which it is to
/// tell others.
pub fn what_an_honest_vat_has_is_its_own()
    ensures { WhatAnHonestVatHasIsItsOwn }
{}

/// Each promise that is named in a note was made by its host, and each answer is of a message that its sender made, whoever
/// put the note.
pub fn notes_name_what_was_made()
    ensures { NotesNameWhatWasMade }
{}

/// Each note is about a name of one of the two vats of its link, whoever put it.
pub fn notes_name_their_ends()
    ensures { NotesNameTheirEnds }
{}

/// What stands in the tables of a connection was made, and is of its two vats: a vat hosts what it exported and what it was
/// asked for, and the peer hosts what it imported and what it asked for.
pub fn tables_name_their_ends()
    ensures { TablesNameTheirEnds }
{}

/// A frame that the judge accepts says a note between its two vats, which names what was made, and in which names of the
/// two pass, and gifts that the sender provides.
pub fn what_is_spoken_is_between()
    ensures { WhatIsSpokenIsBetween }
{}

/// The record of a hostile vat knows each name in what its frame says, or it is an object, and has had the message.
pub fn what_is_spoken_is_known()
    ensures { WhatIsSpokenIsKnown }
{}

/// Each scene of a run is reached by moves in which a hostile vat says nothing but in frames, and nothing but what names what
/// was made and is known to it, and is between its two vats, of which the receiver is honest.
pub fn runs_are_lawful()
    ensures { RunsAreLawful }
{}

/// What a vat asked its peer for, by the tables of their connection, is what the notes ask for that it put on the link, in their
/// order; so the number of a question is that of the note that asks it, be it put by an honest vat or in a frame.
pub fn questions_are_as_logged()
    ensures { QuestionsAreAsLogged }
{}

/// A run that stops leaves a scene to which it came: after some of its opening turns, or after all of them and some entries and
/// injected frames. Nothing of the step that stopped is left in it: the frame that it carried is on its link, no gift is claimed
/// and no link cut. What `step` adds is that this step is the next one there, and that the number in the stop is its number.
pub fn halted()
    ensures left { StopsLeaveWhatWas }
    ensures step { NextStepsStop }
{}

/// A gift of a third vat that is told twice in one frame passes the second time as a plain name of that vat, so names of the two
/// vats alone are not all that passes.
pub fn thirds_are_needed()
    ensures { ThirdsAreNeeded }
{}
