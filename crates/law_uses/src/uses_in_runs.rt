//! What activations use, they know.

ghost use Rattle.law_uses.specs.Connectivity.Shortening.{ShorteningsOpenWhatIsAsked};
ghost use Rattle.law_uses.specs.Connectivity.UseLaws.{StepsAreConnected};
ghost use Rattle.law_uses.specs.Connectivity.UseLaws.{RunsAreConnected};
ghost use Rattle.law_uses.specs.Connectivity.InTime.{StepsAreInTime};
ghost use Rattle.law_uses.specs.Connectivity.Told.{StepsTellWhatTheyMake};
ghost use Rattle.law_uses.specs.Connectivity.Told.{RunsTellWhatIsHeld};
ghost use Rattle.law_uses.specs.Connectivity.News.{WhatIsMadeIsNew};

/// The lines of every step of a vat are connected, however it ends: an activation uses and gives
/// back only what it knows by initial conditions, endowment, parenthood and introduction, and what a
/// line tells of a name, that it settles, waits or comes to be viewed, has its cause before it. The
/// guards of its captures and slots it knows as guards alone, and uses to coerce: as a value it has one
/// only where it was given to it so, or where it asked an audition for it. It asks that nothing has
/// happened in the step before, and that no ejector and no audition is live.
pub fn steps_are_connected()
    ensures { StepsAreConnected }
{}

/// The lines of every step are connected as they are told, however it ends: what a line uses and gives
/// back was known by the lists and objects that were there then, each from before the step or told by a
/// line before it, and not by what came to be later in the step. What a call that begins an activation
/// calls was followed then to an object that was there. It asks what `steps_are_connected` asks.
pub fn steps_are_connected_in_time()
    ensures { StepsAreInTime }
{}

/// Where a note arrives that asks a vat to open a gift for what a name settled to, each note that the
/// vat puts in this step opens that gift as an object to which the name leads, and goes to the vat of
/// that object. It asks that nothing has happened in the step before and no note was put in it.
pub fn shortenings_open_what_is_asked()
    ensures { ShorteningsOpenWhatIsAsked }
{}

/// In every run, of any script, every step that a vat begins in a world of the run is connected:
/// after any of its opening turns, and after any entries of a schedule.
pub fn runs_are_connected()
    ensures { RunsAreConnected }
{}

/// After every step of a vat each object was there before it, or a line of the step tells with which
/// captures and stamps it was made, and each resolver, with which promise; what waits on a name did so
/// before, or a line tells it; what is in a var slot was in it before, or a line tells that an
/// activation put it there; and what a line says was read from a slot was in it before the step, or
/// a line before it tells that. It asks what `steps_are_connected` asks.
pub fn steps_tell_what_they_make()
    ensures { StepsTellWhatTheyMake }
{}

/// In every world of every run the history tells with which captures and stamps each object was
/// made, with which promise each resolver, that an activation of its vat put in each var slot what is
/// in it, and that what waits on a name waits on it or is viewed as it.
pub fn runs_tell_what_is_held()
    ensures { RunsTellWhatIsHeld }
{}

/// What a line of a step says was made is new: objects, ejectors, auditions and resolvers, and var
/// slots have numbers that rise from the vat's count before the step to its count after it; and the
/// lists of the vat after the step are those before it and, in order, those that its lines tell of,
/// each with the next number. It asks what `steps_are_connected` asks.
pub fn what_is_made_is_new()
    ensures { WhatIsMadeIsNew }
{}
