//! Names of gifts are those of the run, and stay.

ghost use Rattle.ev_claims.specs.Statements.{NamedGiftsKeepTheirNames, NamesAreShown, UnclaimedLinesStay};

/// `name` prints a gift as the run does, where it goes by itself and where it is the entry of a vat that learnt it by a position.
pub fn names_are_shown()
    ensures { NamesAreShown }
{}

/// A gift that has a name keeps it. So no line that was written changes by what is drawn or claimed later.
pub fn named_gifts_keep_their_names()
    ensures { NamedGiftsKeepTheirNames }
{}

/// Where nothing is claimed the lines of a run are those of a run without hostile vats, with no condition on the keys of gifts.
pub fn unclaimed_lines_stay()
    ensures { UnclaimedLinesStay }
{}
