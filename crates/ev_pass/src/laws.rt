//! What passing means in the machine, in local numbers.

ghost use Rattle.ev_pass.specs.Statements.{DeliversAsTheMachine, InformsAsTheMachine, PassesAllAsTheMachine, PassesAsTheMachine};

/// What a value passes as, and what that changes (`Interior::pass`), is what the machine makes of it: fuel, words, notes and vats that
/// are to be told.
pub fn passes_as_the_machine()
    ensures { PassesAsTheMachine }
{}

/// The same of several values (`Interior::pass_all`).
pub fn passes_all_as_the_machine()
    ensures { PassesAllAsTheMachine }
{}

/// A message that goes out (`Interior::deliver`) goes out as in the machine.
pub fn delivers_as_the_machine()
    ensures { DeliversAsTheMachine }
{}

/// A vat is told what a name settled to (`Interior::inform`) as in the machine.
pub fn informs_as_the_machine()
    ensures { InformsAsTheMachine }
{}
