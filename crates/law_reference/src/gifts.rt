//! What holds of gifts in every world of every run: after any of the opening turns of a script, and
//! after all of them and any entries of a schedule.
//!
//! A name that is neither of the vat that passes it nor of the receiver passes as a gift, under a word
//! that is drawn for it; and a vat that is told that a name settled at another vat has a gift there as
//! its view, under a word that it draws.

ghost use Rattle.law_reference.specs.Reference.Apart.{NewWhereApart};
ghost use Rattle.law_reference.specs.Reference.GiftAsking.{WhoLearnsAGiftAsks};
ghost use Rattle.law_reference.specs.Reference.News.{GiftsApartComeNew};
ghost use Rattle.law_reference.specs.Reference.GiftPassing.{GiftsPassOnce, EachDrawHasOneProvider};
ghost use Rattle.law_reference.specs.Reference.Standing.{EachDrawStandsOnce, GiftsStay, WhatIsOpenedOrAskedForStands};

/// Of each draw at most one gift was ever put, in all notes on all links together, and none of a draw
/// that was not made; and so it is with the notes that are under way.
pub fn gifts_pass_once()
    ensures { GiftsPassOnce }
{}

/// Each draw has one provider: the vat that passed a gift under it, or the old host of the name whose
/// view is the gift under it.
///
/// All notes that were put, and all gifts at their hosts, tell of it. The gift that passes in a note is of
/// neither vat, and the sender provides it. What is opened in a note, its sender provides. Who asks for
/// a gift names its provider. Who wants an object as a gift asks the provider of it. And each gift at
/// its host is entered with its provider.
pub fn each_draw_has_one_provider()
    ensures { EachDrawHasOneProvider }
{}

/// No two gifts that stand at a vat are of one draw.
pub fn each_draw_stands_once()
    ensures { EachDrawStandsOnce }
{}

/// A gift that stands at its host stands there after every step, whatever the names are and however
/// the step ends.
pub fn gifts_stay()
    ensures { GiftsStay }
{}

/// Once a gift was opened by its provider, or asked for, it stands at the vat where that note arrived.
pub fn what_is_opened_or_asked_for_stands()
    ensures { WhatIsOpenedOrAskedForStands }
{}

/// Once a note arrived in which a gift passed, the vat has put a note to the host of the gift that asks
/// for the gift of the sender under that draw, or it has noticed the host.
pub fn who_learns_a_gift_asks_for_it()
    ensures { WhoLearnsAGiftAsks }
{}

/// The first note on a link brings each gift once at most, and none that is claimed at the receiver,
/// where its gifts stand apart, and where the receiver claims each gift no more often than it may.
///
/// They stand apart where a gift that passes in the note is neither known to the receiver nor named in
/// the note, and where each gift of the receiver's own that it knows, or that the note names, stands
/// among its gifts. So it is in every run, as `apart` proves. No vat of the script may be told twice
/// that it knows a vat, or that it knows itself.
pub fn gifts_come_new()
    ensures { GiftsApartComeNew }
{}

/// So the notes of a run bring what is new, as `names_are_known_once` asks of them, where the gifts of
/// each note that arrives stand apart: of all other names `notes_bring_new_but_gifts` says it of every run.
/// No vat of the script may be told twice that it knows a vat, or that it knows itself.
pub fn notes_bring_new_where_gifts_stand_apart()
    ensures { NewWhereApart }
{}
