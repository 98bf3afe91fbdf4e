//! The numbers of connections, and the frames that are written and read by them.

ghost use Rattle.law_frame.specs.Frame.Growing.{NumbersStay};
ghost use Rattle.law_frame.specs.Frame.Reads.{WhatIsWrittenIsRead};
ghost use Rattle.law_frame.specs.Frame.OwnFrames.{FramesAreWrittenByNumbers};
ghost use Rattle.law_frame.specs.Frame.Together.{ReadingsGoTogether, WritingsGoTogether};
ghost use Rattle.law_frame.specs.Frame.Written.{NextFramesAreWritten, NotesHaveTheirFrames};

/// What has a number between two vats keeps it: in each run, from any world on, what a vat exported to another
/// or asked it for, and what the other exported to it or asked it for as far as that has arrived, grows at the
/// end alone, and so do the frames that it wrote.
pub fn numbers_stay()
    ensures { NumbersStay }
{}

/// The readings of a frame by the numbers of a vat and in names go together: where names are changed to what a table
/// has for them, and objects are told from promises as before, what is read by the changed tables is what is read by the tables, changed.
pub fn readings_go_together()
    ensures { ReadingsGoTogether }
{}

/// The writings of a note by the numbers of a vat and in names go together too: what is written by the changed tables is what is
/// written by the tables, and so are the tables after it, where the names in them and in the note are told apart alike, and the answer
/// that is asked for is the changed one.
pub fn writings_go_together()
    ensures { WritingsGoTogether }
{}

/// So a vat writes by its own numbers the very frame that the note has in names: where what it has in numbers for the peer, and the
/// note, stand for what it has in names and for the note in names. What it has in numbers after it stands for what it has in names.
pub fn frames_are_written_by_numbers()
    ensures { FramesAreWrittenByNumbers }
{}

/// The notes under way on a link that is not cut have their frames, in order, behind those that have arrived, and each
/// frame is what the sender wrote by its own tables as the note was put. And the receiver has, in order, all that it was
/// asked for in what has arrived. So it is whichever vats are hostile, and whatever they say.
pub fn notes_have_their_frames()
    ensures { NotesHaveTheirFrames }
{}

/// The bytes of the next frame to arrive are what its sender wrote, as the note was put, by tables that have only grown
/// since then: in each world of each run.
pub fn next_frames_are_written()
    ensures { NextFramesAreWritten }
{}

/// What a vat writes is what its peer reads: the frame of a note is read, by the peer's own tables, as that note, each
/// name of it by its number and as new what is told first; where what the writer asked for has arrived, and each name
/// of another host in the note has a number. And what was exported with it has its positions at the peer.
pub fn what_is_written_is_read()
    ensures { WhatIsWrittenIsRead }
{}
