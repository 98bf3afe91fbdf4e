//! A text tells the names and messages in it.

ghost use Rattle.law_text.specs.Text.Names.{TextsTellMessages, TextsTellNames};

/// Two messages with one text are one, of vats whose names differ and have no mark of a name in them.
pub fn texts_tell_messages()
    ensures { TextsTellMessages }
{}

/// Two names with one text are one, of such vats.
pub fn texts_tell_names()
    ensures { TextsTellNames }
{}
