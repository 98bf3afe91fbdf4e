//! The lines of a run can be told step by step, before what follows is known.
//! No vat of the script may be told twice that it knows a vat, or that it knows itself.

ghost use Rattle.law_frame.specs.Stopping.Lines.{LinesAreShownSoFar, OpeningTurnsShowLinesSoFar, RunsShowLinesSoFar, TextsAreWrittenSoFar};

/// What the events of a run so far show, each gift by the place of its word among the words drawn so far, is
/// the front of what they and the events after them show, each gift by its place among all words drawn by
/// then; whether the entries that follow go to their end or one stops the run. For the word of each gift that
/// an event names was drawn by then, and words are only drawn at the end.
pub fn lines_are_shown_so_far()
    ensures { LinesAreShownSoFar }
{}

/// So it is of every world that the schedule of a script comes through, and the whole run with its closing
/// list.
pub fn runs_show_lines_so_far()
    ensures { RunsShowLinesSoFar }
{}

/// And so it is after some of the opening turns.
pub fn opening_turns_show_lines_so_far()
    ensures { OpeningTurnsShowLinesSoFar }
{}

/// So the text of a script's run can be written as it goes: in each world on the way, after an opening turn or
/// an entry, the text of the events so far is the front of the text of the whole run, also of one that stops.
pub fn texts_are_written_so_far()
    ensures { TextsAreWrittenSoFar }
{}
