//! What settling means in the machine, in local numbers.

ghost use Rattle.ev_settle.specs.Performing.{SettlesAsTheMachine};
ghost use Rattle.ev_settle.specs.Statements.{FinishesAsTheMachine, ForwardsAsTheMachine, IsSmashedAsTheMachine, IsToldAsTheMachine, ResolvesAsTheMachine, SendsAsTheMachine, SendsOnlyAsTheMachine, ThrowsAsTheMachine, WhensAsTheMachine};

/// A name settles (`settle`) as in the machine: what waits goes on in its order, and other vats are sent messages and told.
pub fn settles_as_the_machine()
    ensures { SettlesAsTheMachine }
{}

/// A name resolves to a value (`resolve`) as in the machine.
pub fn resolves_as_the_machine()
    ensures { ResolvesAsTheMachine }
{}

/// A message is sent (`send`) as in the machine, which gives the same answer.
pub fn sends_as_the_machine()
    ensures { SendsAsTheMachine }
{}

/// A message that asks for no answer is sent (`send_only`) as in the machine.
pub fn sends_only_as_the_machine()
    ensures { SendsOnlyAsTheMachine }
{}

/// A message that is here is sent on (`forward`) as in the machine.
pub fn forwards_as_the_machine()
    ensures { ForwardsAsTheMachine }
{}

/// An object is asked to react (`when`) as in the machine, and a problem is thrown where it is not near.
pub fn whens_as_the_machine()
    ensures { WhensAsTheMachine }
{}

/// A resolver is told a value (`tell_resolver`) as in the machine.
pub fn resolvers_are_told_as_the_machine()
    ensures { IsToldAsTheMachine }
{}

/// A resolver is told a problem (`smash_resolver`) as in the machine.
pub fn resolvers_are_smashed_as_the_machine()
    ensures { IsSmashedAsTheMachine }
{}

/// A turn ends with a value (`finish`) as in the machine: its answer resolves to it.
pub fn finishes_as_the_machine()
    ensures { FinishesAsTheMachine }
{}

/// A turn ends with a problem (`throw`) as in the machine: its answer is broken with it.
pub fn throws_as_the_machine()
    ensures { ThrowsAsTheMachine }
{}
