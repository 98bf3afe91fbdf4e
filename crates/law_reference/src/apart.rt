//! What holds of gifts, and so of names, tables and waits, in every run in which each notice stands
//! behind a cut of the same two vats, which are not one, as every script that is read has it. No vat of
//! the script may be told twice that it knows a vat, or that it knows itself, which the reading of
//! scripts refuses. Nothing else is asked.

ghost use Rattle.law_reference.specs.Reference.ApartAsking.{GiftsFollowAsks, OwnGiftsStand};
ghost use Rattle.law_reference.specs.Reference.Hiding.{GiftsUnderWayAreHidden, KnownToTheirHostsAlone};
ghost use Rattle.law_reference.specs.Reference.ApartWhole.{EachNameIsKnownOnce, EachVatHasItsTable, GiftsStandApart, NotesBringWhatIsNew, WaitsEndInEveryVat};

/// As long as a gift of a draw is under way, no vat has a gift of that draw in hand, no vat but the
/// host of one knows it, and no note names one but as a gift that passes. This asks nothing of notices.
///
/// What a vat has in hand are the names in its values, messages and notes, and those of which it is to
/// tell others; a name of which it only knows something, as what waits on it, is not in hand.
pub fn gifts_under_way_are_hidden()
    ensures { GiftsUnderWayAreHidden }
{}

/// Who knows a gift that is under way is its host. This asks nothing of notices.
pub fn gifts_under_way_are_known_to_their_hosts_alone()
    ensures { KnownToTheirHostsAlone }
{}

/// A gift of its own that a vat knows stands among its gifts.
pub fn own_gifts_stand()
    ensures { OwnGiftsStand }
{}

/// What a vat knows as a gift of another vat stands there; or the link there is cut; or the gift is
/// asked for on the way there, in front of all notes that name it.
pub fn gifts_follow_asks()
    ensures { GiftsFollowAsks }
{}

/// The gifts of the first note on each link stand apart at its receiver: one that passes is neither
/// known to the receiver nor named in the note, and one of the receiver's own that it knows, or that
/// the note names, stands there.
pub fn gifts_stand_apart()
    ensures { GiftsStandApart }
{}

/// The notes that arrive bring what is new: each name once at most, and none that is claimed at the
/// receiver.
pub fn notes_bring_new()
    ensures { NotesBringWhatIsNew }
{}

/// Each vat knows each name once.
pub fn each_name_is_known_once()
    ensures { EachNameIsKnownOnce }
{}

/// The table by which the numbers of a vat are read is one, as the theorem on numbers asks of it.
pub fn each_vat_has_its_table()
    ensures { EachVatHasItsTable }
{}

/// In each vat the waits and views from any name on end, after no more than there are names known.
pub fn waits_end_in_every_vat()
    ensures { WaitsEndInEveryVat }
{}
