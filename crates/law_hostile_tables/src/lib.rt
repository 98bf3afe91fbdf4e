//! What holds of names in each configuration of a run in which vats are hostile: the ground for the run in the vats' own numbers.
//! Nothing is asked of frames.
#![tactic(auto)]

ghost use Rattle.law_hostile_tables.specs.Positions.{ExportsAreOfTheirHosts, NoMessageHasANumber, PositionsAreKept};
ghost use Rattle.law_hostile_tables.specs.Steps.{EachPutsSoInPlays, OwnStepsLearnNoGifts, OwnStepsPutSo};
ghost use Rattle.law_hostile_tables.specs.Tables.{OwnStepsExportTheirOwn, OwnStepsLeaveKinds, TablesAreOfTheirKinds};
ghost use Rattle.law_hostile_tables.specs.Telling.{NotesTellNames, OwnPromisesAreInOrder, OwnStepsTellNames};

/// What a vat has exported to another keeps its position.
pub fn positions_are_kept()
    ensures { PositionsAreKept }
{}

/// What stands at a position of a vat's exports to another is of that vat.
pub fn exports_are_of_their_hosts()
    ensures { ExportsAreOfTheirHosts }
{}

/// No name of a message has a number between two vats.
pub fn no_message_has_a_number()
    ensures { NoMessageHasANumber }
{}

/// What an honest vat put in its last step, in each configuration, can be written by numbers: no message is named as a reference, and what
/// the answer is called that a note asks for is that answer's name.
pub fn each_puts_so_in_plays()
    ensures { EachPutsSoInPlays }
{}

/// So it is after any step of an honest vat that no note brings, in any world to which such a run may come, also between the frame that is
/// said and its arrival.
pub fn own_steps_put_so()
    ensures { OwnStepsPutSo }
{}

/// By such a step no gift comes to be known to the vat, of its own or of another vat's.
pub fn own_steps_learn_no_gifts()
    ensures { OwnStepsLearnNoGifts }
{}

/// The promises of its own that an honest vat knows are those that it made, in order, each once: a note that tells one that was not made is
/// none, by whomever it is put.
pub fn own_promises_are_in_order()
    ensures { OwnPromisesAreInOrder }
{}

/// A step of an honest vat that no note brings tells each name that comes to be known in it.
pub fn own_steps_tell_names()
    ensures { OwnStepsTellNames }
{}

/// So does a step by which a note is received, from an honest vat or a hostile one, of the names that the note did not bring.
pub fn notes_tell_names()
    ensures { NotesTellNames }
{}

/// In the table by which the numbers of an honest vat are read, what it knows are no objects, what it has had are messages, and what others
/// exported to it are objects of theirs. That it knows each name once is not said.
pub fn tables_are_of_their_kinds()
    ensures { TablesAreOfTheirKinds }
{}

/// So it is after any step that no note brings.
pub fn own_steps_leave_kinds()
    ensures { OwnStepsLeaveKinds }
{}

/// What such a step exports is of the vat.
pub fn own_steps_export_their_own()
    ensures { OwnStepsExportTheirOwn }
{}
