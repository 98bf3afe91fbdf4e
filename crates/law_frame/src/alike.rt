//! In every world of every run the note that stands first on a link that is not cut is read alike: its
//! receiver reads the frame by its own tables and numbers as the one machine reads the note in names.
//!
//! That is the premise of the theorem on numbers on a note that arrives. The laws hold of runs in which
//! each notice stands behind a cut of the same two vats, and no vat of the script may be told twice that
//! it knows a vat, or that it knows itself. Each law names what it asks of gifts, if anything.

ghost use Rattle.law_frame.specs.Frame.AlikeArrivals.{ArrivalsByNumbersStand};
ghost use Rattle.law_frame.specs.Frame.Positions.{PositionsAreKeptAlike};
ghost use Rattle.law_frame.specs.Frame.Order.{GiftsAreAskedForFirst};
ghost use Rattle.law_frame.specs.Frame.Kinds.{DeliveriesAreReadAlike, OpeningsAreReadAlike, AsksAreReadAlike, SettlingsAreReadAlike, ShorteningsAreReadAlike, NotesAreReadAlike, NewNotesAreReadAlike};

/// A message is read alike: its target, its arguments from left to right, and what is new among them.
pub fn deliveries_are_read_alike()
    ensures { DeliveriesAreReadAlike }
{}

/// What a gift is opened to is read alike.
pub fn openings_are_read_alike()
    ensures { OpeningsAreReadAlike }
{}

/// A gift that is asked for is read alike, where it stands among the gifts of the receiver if the receiver
/// knows it.
pub fn asks_are_read_alike()
    ensures { AsksAreReadAlike }
{}

/// What a name settled to is read alike: the name, then what passes.
pub fn settlings_are_read_alike()
    ensures { SettlingsAreReadAlike }
{}

/// A name whose object is wanted as a gift is read alike.
pub fn shortenings_are_read_alike()
    ensures { ShorteningsAreReadAlike }
{}

/// Every note is read alike, under both of what the kinds ask of gifts.
pub fn notes_are_read_alike()
    ensures { NotesAreReadAlike }
{}

/// Every note is read alike in each run whose notes bring what is new: nothing else is asked of gifts.
pub fn new_notes_are_read_alike()
    ensures { NewNotesAreReadAlike }
{}

/// No note names a gift for which a later note of the same link asks, in every world of a run whose notes
/// bring what is new. It is said of all notes that were ever put.
pub fn gifts_are_asked_for_first()
    ensures { GiftsAreAskedForFirst }
{}

/// In each run whose notes bring what is new, the receiver of the next note hears it by its own tables, and
/// its arrival so heard, from each state in numbers that stands for what the note finds, ends in one that
/// stands for the state of the receiver after the note was carried.
///
/// The numbers are read by the names and messages that it has in the end, and by what others had exported
/// to it before.
pub fn arrivals_by_numbers_stand()
    ensures { ArrivalsByNumbersStand }
{}

/// In each run whose notes bring what is new, once the receiver of the next note heard it, it has by
/// position what the sender exported to it in the notes that have arrived and in this one, and knows as
/// many names as are known once the note was read in names.
///
/// So what the note names as new gets the same number and the same position on both sides.
pub fn positions_are_kept_alike()
    ensures { PositionsAreKeptAlike }
{}
