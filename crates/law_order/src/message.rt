//! The place of each message.

ghost use Rattle.law_order.specs.Ordering.Comings.{CarriedArePutLast, CarriedComeLast, FoundPlacesKeep, HeldComeInOrder, LostMessagesDoom, QueuesTellOrder, SendsComeLast};
ghost use Rattle.law_order.specs.Ordering.Example.{HeldGoInOrder, MessagesAreFound, WaitingComeLast};
ghost use Rattle.law_order.specs.Ordering.Leavings.{CarriedIsFirst, FirstLeftKeeps, TakenIsFirst, TakenIsNowhere};
ghost use Rattle.law_order.specs.Ordering.Messages.{ComersAreBehind, GoneOnIsBehind, LostIsNowhere, NowhereIsDoomed, PlacesAreFound, PlacesAreOne};

/// The place that is found by a message's name is where the message stands: its lane, with just what is in
/// front of it there, on its name. Where none is found the message stands in no lane.
///
/// So one that was taken, is lost, or is on data has no place but nowhere.
pub fn places_are_found()
    ensures { PlacesAreFound }
{}

/// A message that stands once has one place, which is the one that is found.
pub fn places_are_one()
    ensures { PlacesAreOne }
{}

/// Where the ways grow, what was ahead of the end of a lane is ahead of what comes to stand there next, behind
/// all that stood there.
pub fn comers_are_behind()
    ensures { ComersAreBehind }
{}

/// Where the first message of a lane goes on to the end of the next, by an arrival or as what a name held is sent
/// on, it comes behind all that stood there. What was ahead of it stays ahead, and so does what was ahead of
/// the end to which it came.
pub fn gone_on_is_behind()
    ensures { GoneOnIsBehind }
{}

/// A message that is lost is nowhere, and all that it was ahead of is doomed: no object will take it.
pub fn lost_is_nowhere()
    ensures { LostIsNowhere }
{}

/// The places of three messages in a world, by computing: one is on a link, one waits at the host of a gift, and
/// one was taken.
#[tactic(auto, unfolding(crate::specs::Ordering::Example::opened_example))]
pub fn messages_are_found()
    ensures { MessagesAreFound }
{}

/// By a whole send, with an answer or without, the new message comes to stand last where the reference led: in the
/// queue, in what a name holds, or on a link. All that was ahead of the reference is ahead of it; or the link
/// is cut, and what is sent there is doomed.
///
/// It asks what `sends_are_ahead` asks.
pub fn sends_come_last()
    ensures { SendsComeLast }
{}

/// A message that arrives for an object of its receiver, or for a promise of the receiver's own that waits, leaves
/// the front of its link and comes to stand last where it is sent on. What was ahead of it on the link, and
/// what was ahead of the end to which it came, is ahead of it there.
///
/// It asks what `carried_messages_go_on` asks.
pub fn carried_come_last()
    ensures { CarriedComeLast }
{}

/// What a message is ahead of that stands nowhere is doomed: no object will take it.
pub fn nowhere_is_doomed()
    ensures { NowhereIsDoomed }
{}

/// Where order is kept, as in a turn or a settling, each message that stood somewhere comes from the place that
/// was found for it to the place that is found then, and all is ahead of it that was; or what comes to where
/// it stood is doomed.
///
/// It asks that the message stands once at most in the end.
pub fn found_places_keep()
    ensures { FoundPlacesKeep }
{}

/// Where order is kept, and a message stands nowhere any more, all that it was ahead of is doomed: each reference
/// of each vat, and each message that stands where it stood.
pub fn lost_messages_doom()
    ensures { LostMessagesDoom }
{}

/// The places of two messages by computing: they are held for a promise, one behind the other, and as it settles to
/// an object of another vat they stand so on the link to that vat.
#[tactic(auto, unfolding(crate::specs::Ordering::Example::opened_example))]
pub fn held_go_in_order()
    ensures { HeldGoInOrder }
{}

/// What is ahead of a message in a queue stands in front of it there: nothing else is.
pub fn queues_tell_order()
    ensures { QueuesTellOrder }
{}

/// Where order is kept, as in a settling, and a message that the vat held comes to its queue, all that was ahead of
/// it stands in front of it there. So what one name held comes in its order, and what a name held that waited
/// for another comes behind all that the other held.
///
/// A machine that sends on the last first, or lets the names that wait settle before what is held goes on, keeps
/// no order. It asks that the message stands once in the end, and that what was held there is not doomed.
pub fn held_come_in_order()
    ensures { HeldComeInOrder }
{}

/// Where the first message of a lane leaves it, and else messages come to the ends of lanes alone, each other message
/// stands where it stood, less that one in front of it.
///
/// So by `taking_keeps`, `going_on_keeps` or `losing_keeps` all is ahead of it that was.
pub fn first_left_keeps()
    ensures { FirstLeftKeeps }
{}

/// As the first message of a queue is taken, if it is on an object, it leaves the queue so.
pub fn taken_is_first()
    ensures { TakenIsFirst }
{}

/// As a note arrives that delivers a message, the message leaves the front of its link so, whatever the receiver
/// adds in that change.
///
/// It asks that the link is there and not cut, and that both its ends are honest.
pub fn carried_is_first()
    ensures { CarriedIsFirst }
{}

/// The places of three messages by computing: two were held for a promise, and one, sent before them, for a promise
/// that waited on it. As the first settles to an object they come to the queue in this order.
#[tactic(auto, unfolding(crate::specs::Ordering::Example::opened_example))]
pub fn waiting_come_last()
    ensures { WaitingComeLast }
{}

/// A message that arrives for what another vat hosts comes to stand last on the link to that vat, behind all that was
/// ahead of it on its own link and of that end.
///
/// It asks what `carried_messages_are_put_on` asks, and that the vat does not host it itself.
pub fn carried_are_put_last()
    ensures { CarriedArePutLast }
{}

/// A message on an object that is taken from a queue is nowhere then, if it stood once.
pub fn taken_is_nowhere()
    ensures { TakenIsNowhere }
{}
