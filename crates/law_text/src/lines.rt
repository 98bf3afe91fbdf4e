//! A text tells its lines.

ghost use Rattle.law_text.specs.Text.Feeds.{EachLineIsOne, TextsTellLines};

/// No line of an event has a line feed in it, whatever its texts hold, where the names of vats have none.
pub fn each_line_is_one()
    ensures { EachLineIsOne }
{}

/// Two histories with one text have the same lines, one for one: with their frames, and without.
pub fn texts_tell_lines()
    ensures { TextsTellLines }
{}
