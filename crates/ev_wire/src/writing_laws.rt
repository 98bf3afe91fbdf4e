//! What is written means in the machine, in local numbers.

ghost use Rattle.ev_wire.specs.WritingStatements.{WritesAsTheMachine, WritingKeeps};

/// What is written of a note (`write`) is the frame that the machine writes, and the numbers after it are the machine's.
pub fn writes_as_the_machine()
    ensures { WritesAsTheMachine }
{}

/// And each reference is found by the number that came first, as before.
pub fn writing_keeps()
    ensures { WritingKeeps }
{}
