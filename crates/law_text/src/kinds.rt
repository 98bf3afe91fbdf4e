//! The words of a line tell its kind.

ghost use Rattle.law_text.specs.Text.Kinds.{TextsTellKinds, WordsTellKinds};

/// What a reader takes for the kind of a line, by its first words, is the kind of its event. So two events with the same words are of one kind.
pub fn words_tell_kinds()
    ensures { WordsTellKinds }
{}

/// Two histories with one text have events of the same kinds, one for one.
pub fn texts_tell_kinds()
    ensures { TextsTellKinds }
{}
