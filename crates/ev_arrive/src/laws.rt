//! What arrives means in the machine, in local numbers.

ghost use Rattle.ev_arrive.specs.Statements.{DeliversAsTheMachine, IsAskedAsTheMachine, LearnsGiftsAsTheMachine, LearnsMessagesAsTheMachine, NoticesAsTheMachine, OpensAsTheMachine, SettlesElsewhereAsTheMachine, ShortensAsTheMachine};

/// The message of a note comes to be here, or is here again (`learn_message`), as in the machine.
pub fn learns_messages_as_the_machine()
    ensures { LearnsMessagesAsTheMachine }
{}

/// A message is here (`deliver`) as in the machine, once its number, its arguments and its target are learnt.
pub fn delivers_as_the_machine()
    ensures { DeliversAsTheMachine }
{}

/// A gift in what is heard comes to be known and is asked for (`learn_gift`) as in the machine.
pub fn learns_gifts_as_the_machine()
    ensures { LearnsGiftsAsTheMachine }
{}

/// A gift is opened (`arrive_open`) as in the machine.
pub fn opens_as_the_machine()
    ensures { OpensAsTheMachine }
{}

/// A gift is asked for (`arrive_ask`) as in the machine.
pub fn is_asked_as_the_machine()
    ensures { IsAskedAsTheMachine }
{}

/// A name settled elsewhere (`arrive_elsewhere`) as in the machine.
pub fn settles_elsewhere_as_the_machine()
    ensures { SettlesElsewhereAsTheMachine }
{}

/// What a name settled to is wanted as a gift (`arrive_shorten`) as in the machine.
pub fn shortens_as_the_machine()
    ensures { ShortensAsTheMachine }
{}

/// A link is noticed as cut (`notice`) as in the machine.
pub fn notices_as_the_machine()
    ensures { NoticesAsTheMachine }
{}
