//! What is printed of a run is read again, and what is read is how it is printed.

ghost use Rattle.ev_trace_words.specs.Laws.{LinesAreTheirWords, NamesAreReadAgain, NamesAreSpelledSo};

/// A name of a run that is printed is read as itself.
pub fn names_are_read_again()
    ensures { NamesAreReadAgain }
{}

/// A word that is read as a name is how that name is printed.
pub fn names_are_spelled_so()
    ensures { NamesAreSpelledSo }
{}

/// The words of a line, with a space between two, are the line.
pub fn lines_are_their_words()
    ensures { LinesAreTheirWords }
{}
