//! Each message that is sent in a run has one place, until it is taken or lost. No vat of the script
//! may be told twice that it knows a vat, or that it knows itself, which the reading of scripts
//! refuses.

ghost use Rattle.law_fate.specs.Fates.Steps.{ViewsEndInRuns};
ghost use Rattle.law_fate.specs.Fates.Steps.{StepsFindPlaces};
ghost use Rattle.law_fate.specs.Fates.WholeFateRuns.{NotesGoToVatsOfTheRun};
ghost use Rattle.law_fate.specs.Fates.WholeFateRuns.{EachMessageHasAFate};
ghost use Rattle.law_fate.specs.Fates.WholeFateRuns.{ExactlyOneFate};

/// In each vat of every world of a run views end: from each name one comes, by no more views than
/// the vat knows names, to a name that is not viewed.
pub fn views_end_in_runs()
    ensures { ViewsEndInRuns }
{}

/// In every world of a run each step that a vat may take finds a place for each message that it
/// begins with or sends, or loses it with a line, unless the step stops; and each message that had
/// a place before has one after it, or met its fate in the step.
///
/// The steps are the opening turn of the vat, a turn on the first message of its queue, the arrival
/// of any note that is under way on a link, and the notice of any vat. The places of a message at
/// the vat and in the notes that it put, and what became of the message in this step, are no fewer
/// than its places before, and one where the step begins with it, and its sends in this step. It is
/// said whichever links of the vat are cut.
pub fn steps_find_places()
    ensures { StepsFindPlaces }
{}

/// In every world of the runs of a script, each deliver note that a step of a vat puts is put to
/// another vat of the script, so that there is a link for it.
///
/// It asks that each vat of the script knows only vats of the script, which the reading of scripts
/// makes sure of.
pub fn notes_go_to_vats_of_the_run()
    ensures { NotesGoToVatsOfTheRun }
{}

/// In every world of a run the places of a message, its takes and its losses are together exactly
/// as many as its sends: so each message that was sent stands in one place, or was taken once, or
/// was lost once.
///
/// It asks that each vat of the script knows only vats of the script. It is said of the world after
/// any opening turns and after any entries, and not of a run that stopped.
pub fn each_message_has_a_fate()
    ensures { EachMessageHasAFate }
{}

/// In the history of a whole run, with its closing list, each message that was sent has exactly one
/// of: one take, one lost line, one place in the closing list; and one that was not sent has none.
///
/// It asks what `each_message_has_a_fate` asks, and that the run did not stop.
pub fn exactly_one_fate()
    ensures { ExactlyOneFate }
{}
