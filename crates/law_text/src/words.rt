//! A text tells the words of its lines.

ghost use Rattle.law_text.specs.Text.Words.{EachWordIsOne, TextsTellWords};

/// Each word of a line is one where words stand side by side: where it has a space in it, that stands between quotes or brackets. Said of vats whose names are of ordinary bytes.
pub fn each_word_is_one()
    ensures { EachWordIsOne }
{}

/// Two histories with one text have the same words, line for line.
pub fn texts_tell_words()
    ensures { TextsTellWords }
{}
