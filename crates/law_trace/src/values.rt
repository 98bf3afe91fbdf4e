//! Values that are printed are read again.

ghost use Rattle.law_trace.specs.Trace.Laws.{CharactersAreReadAgain, ConstantsAreReadAgain, IntegersAreReadAgain, PrimitivesAreReadAgain, ShortProblemsAreReadAgain, ShortTextsAreReadAgain, ThingsAreReadAgain};

/// A name that is printed is read as that name, and a list or a slot that is printed by its number as that list or slot.
pub fn things_are_read_again()
    ensures { ThingsAreReadAgain }
{}

/// An integer of 128 bits that is printed is read as itself.
pub fn integers_are_read_again()
    ensures { IntegersAreReadAgain }
{}

/// A text of at most 32 characters that is printed is read as itself.
pub fn short_texts_are_read_again()
    ensures { ShortTextsAreReadAgain }
{}

/// Null and the booleans that are printed are read as themselves.
pub fn constants_are_read_again()
    ensures { ConstantsAreReadAgain }
{}

/// A broken reference that is printed is read as itself, where its problem has at most 32 characters.
pub fn short_problems_are_read_again()
    ensures { ShortProblemsAreReadAgain }
{}

/// A primitive that is printed is read as itself.
pub fn primitives_are_read_again()
    ensures { PrimitivesAreReadAgain }
{}

/// A character that is printed is read as itself.
pub fn characters_are_read_again()
    ensures { CharactersAreReadAgain }
{}
