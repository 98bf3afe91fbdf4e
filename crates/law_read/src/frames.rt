//! That each frame of a run is what its sender wrote, and is read as its note.

ghost use Rattle.law_read.specs.ReadScripts.Frames.{FramesAreOfTheirNotes};

/// Law: in each world to which the run of a script that is read comes, the frame that is next to arrive on a link that
/// is not cut is what its sender wrote by its own connection as it put the note; and by its own connection, whatever
/// gifts it knows, the receiver reads in it that note.
pub fn frames_are_of_their_notes()
    ensures { FramesAreOfTheirNotes }
{}
