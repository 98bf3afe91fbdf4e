//! A text tells the value that it is of.

ghost use Rattle.law_text.specs.Text.Values.{TextsTellValues};

/// Two values with one text are one, but for texts of which lines show the same, and for characters and primitives that are spelled alike. Said of vats whose names differ and are of letters, digits, `_` and what is not ASCII, and of values with these vats and numbers of 64 bits; lists in notes by their members.
pub fn texts_tell_values()
    ensures { TextsTellValues }
{}
