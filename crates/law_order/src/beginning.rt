//! What the laws of order ask of the state in which a step begins, and of messages, in every world of a run.

ghost use Rattle.law_order.specs.Runs.Beginnings.{HeldIsOnItsName, HostsAreOfNames, VatsAreReady};
ghost use Rattle.law_order.specs.Runs.Once.{MessagesStandOnce};

/// In every world of a run each vat is ready for its next step (`Ready` of `law_order`), whatever is left of its
/// queue: what it knows is followed to data, to an object, or to a name that is known and waits; each note
/// that lets a gift go is under a word that was drawn; and the answers of its next messages, and its next
/// promises, are new to it.
///
/// No vat of the script may be told twice that it knows a vat, or that it knows itself.
pub fn vats_are_ready()
    ensures { VatsAreReady }
{}

/// In every world of a run each message that a name holds was sent on that name.
pub fn held_is_on_its_name()
    ensures { HeldIsOnItsName }
{}

/// In every world of a run the host that a vat has for a name that it knows is that of the name.
///
/// No vat of the script may be told twice that it knows a vat, or that it knows itself.
pub fn hosts_are_of_names()
    ensures { HostsAreOfNames }
{}

/// In every world of a run each message stands in one lane at most, and there once, whichever vats are honest: so
/// it has one place.
pub fn messages_stand_once()
    ensures { MessagesStandOnce }
{}
