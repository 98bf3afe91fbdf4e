//! What is ahead of what as a message is carried.

ghost use Rattle.law_order.specs.Carries.Carries.{MessageCarriesKeep};

/// As the first note of a link arrives, which delivers a message, what is ahead of a reference or a message stays ahead of
/// it, and what is doomed stays doomed. The message comes last to where its target leads, behind all that was ahead of it:
/// to the queue, to what is held for a name that waits, or to the next link, with what its arguments bring. Where it comes
/// to no object it is left out: a line tells that it was lost, or it is queued on data; then order is kept if it stands
/// nowhere else. Where it goes on to a vat that is not honest, order is kept behind all other messages.
///
/// Asks of the world: the link has honest ends and is not cut; the next link, if any, is there; the receiver is ready; no
/// name in the note is one that the receiver is to make next; and of each gift among the arguments the receiver did not
/// notice the host, or the gift is of another vat and is not known as it is read.
pub fn message_carries_keep()
    ensures { MessageCarriesKeep }
{}
