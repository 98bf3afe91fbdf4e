//! Lines whose gifts have names.

ghost use Rattle.law_named_lines.specs.Statements.{LinesKeepTheirText, PrintedLinesAreShown};

/// A line in which each gift has a name prints as it did, whatever words are drawn and whatever gifts frames name later. So what is written
/// of a run while it goes on is what its end would write.
///
/// It does not say that the gifts of each line have names when it is told; that is of runs.
pub fn lines_keep_their_text()
    ensures { LinesKeepTheirText }
{}

/// What the code prints of an event, by what is drawn and claimed, is what the run shows of it, where no key in it prints by its word without
/// being claimed.
pub fn printed_lines_are_shown()
    ensures { PrintedLinesAreShown }
{}
