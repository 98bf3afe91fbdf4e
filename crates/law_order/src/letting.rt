//! The notes that let gifts go, in every world of a run.

ghost use Rattle.law_order.specs.Cuts.Letting.{FirstOpensLetGo, FirstShortensLetGo, NotesAreLogged, OneNoteLetsAGiftGo};
ghost use Rattle.law_order.specs.Cuts.Opening.{EachGiftIsOpenedOnce};

/// In every world of a run at most one note is under way that lets the gift under a key go: a note of its
/// provider that opens it, or the note by which its provider is asked to.
///
/// A vat puts such a note as it draws the word of the key, or in the place of one that arrives.
pub fn one_note_lets_a_gift_go()
    ensures { OneNoteLetsAGiftGo }
{}

/// In every world of a run at most one note was ever put that opens the gift under a key, on all links together; and none
/// as long as a note is under way that asks its provider to.
///
/// So a note that opens a gift and is under way is the only one that there ever was.
pub fn each_gift_is_opened_once()
    ensures { EachGiftIsOpenedOnce }
{}

/// Each note under way stands in the log of its link: so where one lets a gift go, one was put.
pub fn notes_are_logged()
    ensures { NotesAreLogged }
{}

/// Where the first note on a link opens a gift, what waits for the gift leads to this note: what
/// `law_order::opened_gifts_turn` asks of the note that arrives.
///
/// It asks that both ends of the link are honest.
pub fn first_opens_let_go()
    ensures { FirstOpensLetGo }
{}

/// Where the first note on a link asks the provider of a gift to open it, what waits for the gift leads to this
/// note, and no note that opens the gift is under way: what `law_order::shortened_gifts_turn` asks of the note
/// that arrives.
///
/// It asks that both ends of the link are honest.
pub fn first_shortens_let_go()
    ensures { FirstShortensLetGo }
{}
