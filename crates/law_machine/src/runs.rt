//! Laws of every run, from any world and over any entries of a schedule.

ghost use Rattle.law_machine.specs.Run.Runs.{ObjectsStay};
ghost use Rattle.law_machine.specs.Run.Runs.{ResolversStay};
ghost use Rattle.law_machine.specs.Run.Runs.{EjectorsStayDead};
ghost use Rattle.law_machine.specs.Run.Runs.{AuditionsStayDead};
ghost use Rattle.law_machine.specs.Run.Runs.{ListsStay};
ghost use Rattle.law_machine.specs.Run.Runs.{GuardsStay};
ghost use Rattle.law_machine.specs.Run.Runs.{NamesStay};
ghost use Rattle.law_machine.specs.Run.Runs.{NoticesStay};
ghost use Rattle.law_machine.specs.Run.Runs.{SettlingsStay};
ghost use Rattle.law_machine.specs.Run.Runs.{BreakingsStay};
ghost use Rattle.law_machine.specs.Run.Runs.{SettledBreaksStay};
ghost use Rattle.law_machine.specs.Run.Runs.{SeveredObjectsStay};
ghost use Rattle.law_machine.specs.Run.Runs.{FollowedBreaksStay};
ghost use Rattle.law_machine.specs.Run.Runs.{SeveringsStay};
ghost use Rattle.law_machine.specs.Run.Runs.{BeginAtRest};
ghost use Rattle.law_machine.specs.Run.Runs.{FuelNeverRises};
ghost use Rattle.law_machine.specs.Run.Runs.{HistoryGrows};
ghost use Rattle.law_machine.specs.Run.Entries.{IdleWhereNothingIs};

/// In a run an object keeps its number, and its node, captures and stamps.
pub fn objects_stay()
    ensures { ObjectsStay }
{}

/// In a run a resolver keeps its promise.
pub fn resolvers_stay()
    ensures { ResolversStay }
{}

/// In a run an ejector that is dead stays dead.
pub fn ejectors_stay_dead()
    ensures { EjectorsStayDead }
{}

/// In a run an audition that is dead stays dead.
pub fn auditions_stay_dead()
    ensures { AuditionsStayDead }
{}

/// In a run a list keeps its number and its members.
pub fn lists_stay()
    ensures { ListsStay }
{}

/// In a run a var slot keeps its number and its guard.
pub fn guards_stay()
    ensures { GuardsStay }
{}

/// In a run a name keeps its place among those that a vat knows, and its host.
pub fn names_stay()
    ensures { NamesStay }
{}

/// In a run a cut that was noticed stays noticed.
pub fn notices_stay()
    ensures { NoticesStay }
{}

/// In a run a name that settled at a vat stays settled there to the same value.
pub fn settlings_stay()
    ensures { SettlingsStay }
{}

/// In a run a name that settled at a vat to a broken reference is followed there to it ever after.
pub fn breakings_stay()
    ensures { BreakingsStay }
{}

/// In a run what settlings lead to a broken reference at a vat, however many, is followed there to it ever after.
pub fn settled_breaks_stay()
    ensures { SettledBreaksStay }
{}

/// In a run what settlings lead to an object of a vat whose cut was noticed is followed to broken `partition` ever after.
pub fn severed_objects_stay()
    ensures { SeveredObjectsStay }
{}

/// In a run what a vat at rest follows to a broken reference is followed there to it ever after.
pub fn followed_breaks_stay()
    ensures { FollowedBreaksStay }
{}

/// In a run nothing that a vat follows has a host whose cut it noticed, ever after.
pub fn severings_stay()
    ensures { SeveringsStay }
{}

/// Each vat of a script begins at rest.
pub fn vats_begin_at_rest()
    ensures { BeginAtRest }
{}

/// In a run the fuel that is left never rises.
pub fn fuel_never_rises()
    ensures { FuelNeverRises }
{}

/// In a run the history is added to at its end alone.
pub fn history_grows()
    ensures { HistoryGrows }
{}

/// An entry is idle exactly where nothing is there: a turn where the queue is empty, and a carry where no note is under way on
/// a link that is not cut. Else a turn takes the first message of the queue, which the line behind its own tells, and leaves
/// those behind it in front of what comes to be queued; and a carry brings the first note.
pub fn entries_are_idle_where_nothing_is()
    ensures { IdleWhereNothingIs }
{}
