//! A text tells the history that it is of.

ghost use Rattle.law_text.specs.Text.Parts.{EventsAreTold, TextsTellHistories};
ghost use Rattle.law_text.specs.Text.Runs.{TextsTellRuns};

/// Nothing of an event is left out where it is told part by part: two events that tell the same are one.
pub fn events_are_told()
    ensures { EventsAreTold }
{}

/// Two histories with one text are alike, event by event: they tell the same, but for values that are alike. Said of vats whose names differ and are of letters, digits, `_` and what is not ASCII, and of events with these vats, numbers of 64 bits and verbs in UTF-8. Of texts without frames it is said of all events but the frames.
pub fn texts_tell_histories()
    ensures { TextsTellHistories }
{}

/// So it is with the texts of two runs of scripts with the same vats; and both go to their ends, or stop by one line: in one step, for one reason.
pub fn texts_tell_runs()
    ensures { TextsTellRuns }
{}
