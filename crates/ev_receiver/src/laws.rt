//! What a vat judges by, and that it hears what is lawful.

ghost use Rattle.ev_receiver.specs.Statements.{CountsAreTheMachines, LawfulIsHeardHere, OwnPromisesAreSeen};

/// What a judge sees of a connection is what the run in numbers judges by.
pub fn counts_are_the_machines()
    ensures { CountsAreTheMachines }
{}

/// A lawful operation is heard: where the connection has references alone, it is never refused once it was judged.
pub fn lawful_is_heard()
    ensures { LawfulIsHeardHere }
{}

/// A promise of the vat's own has a number for the peer, as its table tells it, exactly where the vat exported it there or answered with it:
/// so what the code looks at, to see whether the peer was told of a gift that it asks for, is what the run in numbers looks at.
pub fn own_promises_are_seen()
    ensures { OwnPromisesAreSeen }
{}
