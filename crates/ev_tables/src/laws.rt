//! What the numbers of a vat mean in the machine, and that they are kept.

ghost use Rattle.ev_tables.specs.Statements.{AnsweringKeeps, AskingKeeps, BeginsKept, DescribesAsTheMachine, ImportingKeeps, NumbersAsTheMachine};

/// What this vat hosts and tells first comes to have the position (`number`) that the machine gives it.
pub fn numbers_as_the_machine()
    ensures { NumbersAsTheMachine }
{}

/// A reference is described (`describe`) as in the machine.
pub fn describes_as_the_machine()
    ensures { DescribesAsTheMachine }
{}

/// A connection on which nothing has passed finds each reference by the number that came first.
pub fn begins_kept()
    ensures { BeginsKept }
{}

/// So does one on which this vat asks (`Connection::ask`) for the answer of another vat that has no number.
pub fn asking_keeps()
    ensures { AskingKeeps }
{}

/// So does one on which the peer asks (`Connection::answer`), where the answer is of this vat.
pub fn answering_keeps()
    ensures { AnsweringKeeps }
{}

/// So does one on which the peer exports (`Connection::import`), where that is of another vat.
pub fn importing_keeps()
    ensures { ImportingKeeps }
{}
