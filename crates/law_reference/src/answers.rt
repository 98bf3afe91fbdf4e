//! What holds of answers in every world of every run: after any of the opening turns of a script, and
//! after all of them and any entries of a schedule. No vat of the script may be told twice that it
//! knows a vat, or that it knows itself, which the reading of scripts refuses.

ghost use Rattle.law_reference.specs.Reference.Behind.{AnswersFollowMessages, NotesNameWhatIsKnown};
ghost use Rattle.law_reference.specs.Reference.Bring.{NotesBringNewButGifts};
ghost use Rattle.law_reference.specs.Reference.Once.{MessagesComeBeforeAnswers, MessagesGoOnBeforeAnswers, AnswersAreKnownOnce};
ghost use Rattle.law_reference.specs.Reference.AnswerWhole.{NotesBringNewWhereGiftsDo};

/// Each name in a note under way is known to the vat that put it, or is an object.
pub fn notes_name_what_is_known()
    ensures { NotesNameWhatIsKnown }
{}

/// Where a vat knows the answer that a message has at another vat, that vat knows it too, or the link
/// there is cut, or the message is under way there, and neither its own note nor any in front of it
/// names the answer.
pub fn answers_follow_messages()
    ensures { AnswersFollowMessages }
{}

/// The first note on each link brings to its receiver each name but gifts once at most, and none that
/// is claimed there: none that is known, and no answer by which a message that is held may be sent on.
pub fn notes_bring_new_but_gifts()
    ensures { NotesBringNewButGifts }
{}

/// Where a vat knows the answer that a message has at it, no link to it bears the message.
pub fn messages_come_before_answers()
    ensures { MessagesComeBeforeAnswers }
{}

/// Where any vat knows the answer that a message has at one vat, no name of another vat holds the
/// message, and a link to another vat bears it on an object at most.
pub fn messages_go_on_before_answers()
    ensures { MessagesGoOnBeforeAnswers }
{}

/// Each vat knows each answer once.
pub fn answers_are_known_once()
    ensures { AnswersAreKnownOnce }
{}

/// Where the notes of a run bring each gift once at most, and none that is claimed at the receiver, the
/// notes that arrive bring what is new.
pub fn notes_bring_new_where_gifts_do()
    ensures { NotesBringNewWhereGiftsDo }
{}
