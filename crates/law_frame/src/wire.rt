//! What the two vats of a link know of what they asked for and told, in every world of every run.
//!
//! Each law holds of each vat after any of the opening turns of a script, and after all of them and
//! any entries of a schedule. No vat of the script may be told twice that it knows a vat, or that
//! it knows itself.

ghost use Rattle.law_frame.specs.Frame.Known.{WhatAVatAskedForIsKnown, WhatAVatWasAskedForIsKnown, WhatAVatExportedIsKnown, WhatArrivedIsKnown, NotesHoldNoLists, DrawsAreInOrder, QuestionsAreOfTheirHosts};
ghost use Rattle.law_frame.specs.Frame.Given.{NotesNameWhatWasGiven};
ghost use Rattle.law_frame.specs.Frame.News.{NewsIsReadAlike};
ghost use Rattle.law_frame.specs.Frame.Sources.{NamesComeFromTheirHosts};

/// A vat knows each answer and each gift for which it ever asked another.
pub fn what_a_vat_asked_for_is_known()
    ensures { WhatAVatAskedForIsKnown }
{}

/// A vat knows each answer and each gift for which another vat asked it, as far as the notes that
/// ask for them have arrived, as long as the link from there is not cut.
pub fn what_a_vat_was_asked_for_is_known()
    ensures { WhatAVatWasAskedForIsKnown }
{}

/// What a vat ever exported to another it knows, but for objects, which need not be known.
pub fn what_a_vat_exported_is_known()
    ensures { WhatAVatExportedIsKnown }
{}

/// What another vat exported to it, as far as it has arrived, a vat knows, but for objects, as long
/// as the link from there is not cut.
pub fn what_arrived_is_known()
    ensures { WhatArrivedIsKnown }
{}

/// A name of another vat, from which the link is not cut, is known to a vat only where the vat asked
/// that one for it, or was told it by an export that has arrived.
///
/// It is said of runs in which each notice stands behind a cut of the same two vats.
pub fn names_come_from_their_hosts()
    ensures { NamesComeFromTheirHosts }
{}

/// A promise or an object of the receiver that a note tells, on a link that is not cut, was asked of the
/// receiver by the sender, or exported to the sender by the receiver.
///
/// It is said of runs in which each notice stands behind a cut of the same two vats, of each note that
/// was ever put on the link.
pub fn notes_name_what_was_given()
    ensures { NotesNameWhatWasGiven }
{}

/// No note that was ever put on a link holds a list by its number: its members pass in its place.
pub fn notes_hold_no_lists()
    ensures { NotesHoldNoLists }
{}

/// The words that were drawn in a run are the first of its stream, in order, and differ pairwise.
pub fn draws_are_in_order()
    ensures { DrawsAreInOrder }
{}

/// Each answer and each gift for which a vat ever asked another is of that one.
pub fn questions_are_of_their_hosts()
    ensures { QuestionsAreOfTheirHosts }
{}

/// Where the next note to arrive, on a link that is not cut, tells that a name settled at another host, its
/// receiver reads it by its own numbers as it is read in names.
///
/// It is said of runs in which each notice stands behind a cut of the same two vats. The name is an answer
/// or a gift for which the receiver asked, or stands at its position among the exports that have arrived,
/// or is the next of them.
pub fn news_is_read_alike()
    ensures { NewsIsReadAlike }
{}
