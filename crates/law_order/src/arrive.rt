//! What is ahead of what as a note arrives.
//!
//! The note is thought to stand in front of its link until it acts: that is the world before the arrival.
//! A note that delivers nothing and lets no gift go may leave at any time. One that delivers a message
//! leaves in one change with the coming of the message to where it is sent on.

ghost use Rattle.law_order.specs.Ordering.Arrivals.{AgreeingKeeps, ArrivingChangesNothing, CarriedMessagesAreLost, CarriedMessagesArePutOn, CarriedMessagesGoOn, LearntNamesAreBehind, OpenedGiftsTurn, ShortenedGiftsTurn, SilentNotesLeave};

/// An arrival takes the first note from its link. With that note kept there the world is as it was.
pub fn arriving_changes_nothing()
    ensures { ArrivingChangesNothing }
{}

/// A note that asks for a gift, or that tells what a name settled to, leaves its link in the middle of the
/// step of its receiver, and no way is another: the same stands in each lane, and each leads to the same
/// places.
pub fn silent_notes_leave()
    ensures { SilentNotesLeave }
{}

/// A message that arrives for what is data, an object of its receiver or a promise of the receiver's own that
/// waits goes on to where it is sent, in one change with the leaving of its note. So by `going_on_keeps`
/// what is ahead stays ahead; and where it is for data it is lost, so by `losing_keeps` what it was ahead of
/// is doomed.
///
/// It asks that the link is there and not cut, that both its ends are honest, that the name on which the
/// message stands is an object or known by then, and that a promise to which it is followed is known and
/// waits. That a message which is lost stands nowhere else is asked where it is lost.
pub fn carried_messages_go_on()
    ensures { CarriedMessagesGoOn }
{}

/// A message that arrives for what is broken is lost as its note leaves. So by `losing_keeps` what it was
/// ahead of is doomed, and all others stay ahead.
pub fn carried_messages_are_lost()
    ensures { CarriedMessagesAreLost }
{}

/// A message that arrives for what another vat hosts goes on to the link to that vat, in one change in which
/// the note leaves the one link and the new note is put on the other. So by `going_on_keeps` what is ahead
/// stays ahead.
///
/// It asks that the second link is not cut.
pub fn carried_messages_are_put_on()
    ensures { CarriedMessagesArePutOn }
{}

/// What is ahead of a name that a note brings is ahead of where the receiver has that name, as soon as
/// nothing stands in front of the name on its link: so it is from the leaving of the note's message on.
pub fn learnt_names_are_behind()
    ensures { LearntNamesAreBehind }
{}

/// As the note acts that lets a gift go, what waited for the gift at its host goes where the note's name leads
/// there: the note leaves, the gift counts as opened, and what the gift holds leads to that place. So by
/// `turning_keeps` what is ahead stays ahead.
///
/// It is said of all ways in which the gift leads there and that are else the ways of the world after it: so
/// of a gift that waits for that name, and of one that is about to settle. It asks that the link is not cut,
/// that both its ends are honest, that the gift was not opened and waits for nothing else, and that this
/// note is the one that lets it go.
pub fn opened_gifts_turn()
    ensures { OpenedGiftsTurn }
{}

/// As the note acts that asks for a gift, its receiver lets the gift go by a note of its own. What waited for
/// the gift stood behind the first note, and stands behind the second now, which is behind all that stands on
/// the link to the host. So by `turning_keeps` what is ahead stays ahead.
///
/// It asks that neither link is cut, that all three vats are honest, that the name in the note leads over the
/// link to the host, that no note which lets the gift go is under way, and that this one is the one that asks
/// for it.
pub fn shortened_gifts_turn()
    ensures { ShortenedGiftsTurn }
{}

/// Names by which nothing comes to a lane do not count: where two ways agree at all others, what is ahead in
/// the one is ahead in the other, and what is doomed is doomed.
///
/// So the arrival of a note that tells what a name of another vat settled to may change where that name leads
/// on links on which nothing stands by it.
pub fn agreeing_keeps()
    ensures { AgreeingKeeps }
{}
