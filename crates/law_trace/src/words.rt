//! Values and words that are printed are read again.

ghost use Rattle.law_trace.specs.Trace.Renumbered.{WordsAreSameByOtherNumbers};
ghost use Rattle.law_trace.specs.Trace.Words.{ValuesAreReadAgain, WordsAreReadAgain};

/// Any value that is printed is read as what is seen of it: in a note, where lists are written out and at most 100 high, and outside notes.
pub fn values_are_read_again()
    ensures { ValuesAreReadAgain }
{}

/// The words of a line are read apart.
pub fn words_are_read_again()
    ensures { WordsAreReadAgain }
{}

/// An event in which the vats have other numbers has the same words, where each vat has its name by its other number too.
pub fn words_are_same_by_other_numbers()
    ensures { WordsAreSameByOtherNumbers }
{}
