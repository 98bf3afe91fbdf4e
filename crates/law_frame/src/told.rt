//! How the names and the messages of a vat come to it, and by what its steps tell of them.
//!
//! Each law of states holds in every world of every run: after any of the opening turns of a script, and
//! after all of them and any entries of a schedule. Each law of steps holds by every opening turn and every
//! entry that is a step of a vat: a turn that takes a message, a note that arrives, a notice. No vat of the
//! script may be told twice that it knows a vat, or that it knows itself, which the reading of scripts
//! refuses.

ghost use Rattle.law_frame.specs.Local.Told.{EachNewNameIsTold, GiftsAreNamed, GiftsComeAtTheEnd, LinesNameAnswers, MessagesComeInOrder, NotesBringNoOwnPromise, NotesNameWhatTheyAsk, OwnPromisesComeInOrder};

/// The messages that a vat has had after a step are those that it had before, then the message of the
/// note that arrived, if one did and carries a message, and then the messages that the vat made, in order.
pub fn messages_come_in_order()
    ensures { MessagesComeInOrder }
{}

/// The promises of its own that a vat knows are those that it made by `Ref.promise()`, in order.
pub fn own_promises_come_in_order()
    ensures { OwnPromisesComeInOrder }
{}

/// The line of a send or of a reaction names a message that the vat has had. Its answer, if it has one, is
/// the answer of that message at its own host, and the vat knows it.
pub fn lines_name_answers()
    ensures { LinesNameAnswers }
{}

/// Each gift that a vat hosts is named by the vat and the key of the gift, and the vat knows it.
pub fn gifts_are_named()
    ensures { GiftsAreNamed }
{}

/// In a step gifts come to be at the end of those that a vat hosts, which else are only opened.
pub fn gifts_come_at_the_end()
    ensures { GiftsComeAtTheEnd }
{}

/// A note that a vat puts with a message has a message that the vat has had. What it calls the answer is
/// the answer of that message at the receiver, and what an ask note asks for is the gift of the receiver
/// under that key; the vat knows both.
pub fn notes_name_what_they_ask()
    ensures { NotesNameWhatTheyAsk }
{}

/// In a step names come to be known at the end, and each of them is told: it is a promise of the vat, or
/// the answer in a line of a send or a reaction, or what a note that was put asks for, or a gift that came
/// to be at the vat, or it was read in the note that arrived or is the answer for which that asks.
pub fn each_new_name_is_told()
    ensures { EachNewNameIsTold }
{}

/// A note that arrives brings no promise of its receiver that the receiver does not know. So the new
/// promises of a vat are those that it makes in the step, and nothing else tells them.
pub fn notes_bring_no_own_promise()
    ensures { NotesBringNoOwnPromise }
{}
