//! What is heard means in the machine, in local numbers.

ghost use Rattle.ev_wire.specs.Fitting.{WhatIsHeardFits};
ghost use Rattle.ev_wire.specs.HearingStatements.{HearsAsTheMachine, IsReceived, SpelledTellOfPromises, TakesInAsTheMachine};

/// What a vat hears of an operation (`hear`) is what the machine reads of it, and so are the positions, the gifts and the count of
/// names after it; and nothing is heard exactly where the machine reads nothing.
pub fn hears_as_the_machine()
    ensures { HearsAsTheMachine }
{}

/// The note that is heard so is the one by which `receive` of `ev_arrive` receives it.
pub fn is_received()
    ensures { IsReceived }
{}

/// Each operation that `decode` of `ev_op` finds tells of promises alone that they settled.
pub fn spelled_tell_of_promises()
    ensures { SpelledTellOfPromises }
{}

/// What came to stand at the next positions is taken in (`take_in`) as in the machine, and each reference is found by the number that
/// came first.
pub fn takes_in_as_the_machine()
    ensures { TakesInAsTheMachine }
{}

/// What is heard of an operation that `decode` of `ev_op` finds fits the heap (`Fits` of `ev_arrive`), once the texts are kept that its
/// frame brought: so it is learnt, whoever sent it. The gifts that it brought were not learnt before, and references alone come to stand at positions.
pub fn what_is_heard_fits()
    ensures { WhatIsHeardFits }
{}
