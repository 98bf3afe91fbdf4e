//! Each message has one place at most, until it is taken or lost.

ghost use Rattle.law_fate.specs.Fates.FateLaws.{StepsDoubleNone};
ghost use Rattle.law_fate.specs.Fates.FateExample.{FatesAreMet};
ghost use Rattle.law_fate.specs.Fates.Finding.{SendsFindPlaces};
ghost use Rattle.law_fate.specs.Fates.Lasting.{StepsKeepPlaces};
ghost use Rattle.law_fate.specs.Fates.Wellness.{RunsStayWell};
ghost use Rattle.law_fate.specs.Fates.FateRuns.{EachSentOnce, EachTakenOnce, OneFateAtMost, PlacesAndFates};

/// No step of a vat doubles a message, and what it sends is a message that the vat numbers then.
///
/// From any state, however the step ends and whichever of the vat's links are cut: the places of a
/// message at the vat and in the notes that it put, and what became of the message in this step, are
/// no more than its places before, and one where the step begins with it (it is the message that is
/// taken, or that of the note that arrives), and its sends in this step.
pub fn steps_double_none()
    ensures { StepsDoubleNone }
{}

/// No step of a vat loses a message that has a place: its places at the vat and in the notes that it
/// put, and what became of it in this step, are no fewer than its places before, unless the step
/// stops. So it stays where it is, or moves, or is taken or lost with a line.
///
/// It asks that all is well in the state before: no name that is known is that of an object, what
/// settled settled to data or an object, and each message that is held at a name has that name as
/// its target; and that each note put in this step settles a name to no promise and names its
/// message as one. All is well after it. Of a note that arrives it asks the same, and that it
/// brings no object as a new name. It does not say that a message which is sent or arrives in this
/// step finds a place.
pub fn steps_keep_places()
    ensures { StepsKeepPlaces }
{}

/// In every world of a run all is well in each vat, and with each note under way: so what
/// `steps_keep_places` asks holds of each step of a run.
pub fn runs_stay_well()
    ensures { RunsStayWell }
{}

/// A message that is sent on a value which the vat knows finds a place at once, or is lost with a
/// line, unless the step stops; and so does a reaction on one.
///
/// It asks what `steps_keep_places` asks of the state, and that views end: from each name the vat
/// comes, by no more views than it knows names, to one that is not viewed. A value is known that is
/// data, an object, or a name among those that the vat knows. `steps_find_places` of
/// `law_fate` says it of every step of a run.
pub fn sends_find_places()
    ensures { SendsFindPlaces }
{}

/// In a run each message is sent once at most: its history has one line at most that sends it, as a
/// send or as a reaction.
pub fn each_sent_once()
    ensures { EachSentOnce }
{}

/// In a run each message is taken once at most.
pub fn each_taken_once()
    ensures { EachTakenOnce }
{}

/// In every world of a run the places of a message, its takes and its losses are together no more
/// than its sends, and of these there is one at most.
///
/// A place is one in a queue, among what a name holds, among the reactions on a name, or in a
/// deliver note on a link. So a message that was taken or lost stands nowhere from then on, and a
/// message that was not sent stands nowhere. It is said of the world after any opening turns and
/// after any entries, and of the world at which a run stopped.
pub fn places_and_fates()
    ensures { PlacesAndFates }
{}

/// In the history of a whole run, with its closing list, a message has one at most of: one take, one
/// lost line, one place in the closing list; and none where it was not sent.
pub fn one_fate_at_most()
    ensures { OneFateAtMost }
{}

/// The counts of a run, by computing: of three messages the first is taken, the second stands in
/// the closing list and the third is lost, each once.
#[tactic(auto, unfolding(def_run::specs::World::opened_world, crate::specs::Fates::Fate::opened_fate, crate::specs::Fates::FateExample::opened_example))]
pub fn fates_are_met()
    ensures { FatesAreMet }
{}
