//! Lines of events that are printed are read again.

ghost use Rattle.law_trace.specs.Trace.Events.{EventsAreReadAgain, FramesByHandAreRefused};

/// An event whose line is printed is read as what is seen of it: of a text with more than 32 characters its beginning and how long it is, and all else as it is.
pub fn events_are_read_again()
    ensures { EventsAreReadAgain }
{}

/// A line that says that a frame was put on a link by hand, or that one was malformed, breaks rule 43 where it is spelled as such a line is printed.
pub fn frames_by_hand_are_refused()
    ensures { FramesByHandAreRefused }
{}
