//! What notes that come in mean in the machine, in local numbers.

ghost use Rattle.ev_arrive.specs.Fitting.{FittingValuesAreLearnt};
ghost use Rattle.ev_arrive.specs.ReceivingStatements.{ArrivesAsTheMachine, DeliversNotesAsTheMachine, LearnsAsTheMachine, ReceivesAsTheMachine, SettlesAsTheMachine};

/// A value of a note comes to be here (`learn`) as in the machine.
pub fn learns_as_the_machine()
    ensures { LearnsAsTheMachine }
{}

/// A message arrives whole (`arrive_deliver`) as in the machine.
pub fn delivers_notes_as_the_machine()
    ensures { DeliversNotesAsTheMachine }
{}

/// A name settled to what a note says (`arrive_settled`) as in the machine.
pub fn settles_as_the_machine()
    ensures { SettlesAsTheMachine }
{}

/// Each note arrives (`arrive`) as in the machine.
pub fn arrives_as_the_machine()
    ensures { ArrivesAsTheMachine }
{}

/// Each note is received (`receive`) as in the machine, where the code is told what the names of the vat tell.
pub fn receives_as_the_machine()
    ensures { ReceivesAsTheMachine }
{}

/// A value of a note is learnt (`learn`) where it fits the heap: the heap has its texts and lists, and the lists in it weigh at most
/// 65,536 and are at most 100 high. So of no such value does the vat stop, whoever sent it.
pub fn fitting_values_are_learnt()
    ensures { FittingValuesAreLearnt }
{}
