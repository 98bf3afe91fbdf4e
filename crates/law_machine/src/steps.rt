//! Laws of every step of a vat: an opening turn, a turn, the arrival of a note, a notice.

ghost use Rattle.law_machine.specs.Machine.Laws.{FuelNeverRises};
ghost use Rattle.law_machine.specs.Machine.Laws.{ObjectsStay};
ghost use Rattle.law_machine.specs.Machine.Laws.{ResolversStay};
ghost use Rattle.law_machine.specs.Machine.Laws.{EjectorsStayDead};
ghost use Rattle.law_machine.specs.Machine.Laws.{AuditionsStayDead};
ghost use Rattle.law_machine.specs.Machine.Laws.{ListsStay};
ghost use Rattle.law_machine.specs.Machine.Laws.{GuardsStay};
ghost use Rattle.law_machine.specs.Machine.Laws.{NamesStay};
ghost use Rattle.law_machine.specs.Machine.Laws.{MailsStay};
ghost use Rattle.law_machine.specs.Machine.Laws.{DrawsStay};
ghost use Rattle.law_machine.specs.Machine.Laws.{SettlingsStay};
ghost use Rattle.law_machine.specs.Machine.Laws.{BreakingsStay};
ghost use Rattle.law_machine.specs.Machine.Laws.{NoticesStay};
ghost use Rattle.law_machine.specs.Machine.Laws.{HistoryGrows};
ghost use Rattle.law_machine.specs.Machine.Laws.{StepsAreQuiet};
ghost use Rattle.law_machine.specs.Machine.Breaks.{SettledBreaksStay};
ghost use Rattle.law_machine.specs.Machine.Breaks.{SeveredObjectsStay};
ghost use Rattle.law_machine.specs.Machine.Breaks.{FollowedBreaksStay};
ghost use Rattle.law_machine.specs.Machine.Breaks.{SeveringsStay};
ghost use Rattle.law_machine.specs.Machine.Breaks.{NoticesSever};
ghost use Rattle.law_machine.specs.Machine.Breaks.{NoticesBreak};
ghost use Rattle.law_machine.specs.Machine.Breaks.{FarStaysApart};
ghost use Rattle.law_machine.specs.Machine.Breaks.{RestIsNeeded};
ghost use Rattle.law_machine.specs.Machine.Receiving.{EachReceivingIsTold, NewNotesArrive, NothingNewDoesNothing, ReceivingUndoesNothing};

/// The fuel that is left never rises.
pub fn fuel_never_rises()
    ensures { FuelNeverRises }
{}

/// An object keeps its number, and its node, captures and stamps.
pub fn objects_stay()
    ensures { ObjectsStay }
{}

/// A resolver keeps its promise.
pub fn resolvers_stay()
    ensures { ResolversStay }
{}

/// An ejector that is dead stays dead.
pub fn ejectors_stay_dead()
    ensures { EjectorsStayDead }
{}

/// An audition that is dead stays dead.
pub fn auditions_stay_dead()
    ensures { AuditionsStayDead }
{}

/// A list keeps its number and its members.
pub fn lists_stay()
    ensures { ListsStay }
{}

/// A var slot keeps its number and its guard.
pub fn guards_stay()
    ensures { GuardsStay }
{}

/// A name that a vat knows keeps its place among those known, and its host.
pub fn names_stay()
    ensures { NamesStay }
{}

/// A message that a vat has had keeps its place.
pub fn mails_stay()
    ensures { MailsStay }
{}

/// A word that was drawn keeps its number.
pub fn draws_stay()
    ensures { DrawsStay }
{}

/// A name that settled stays settled to the same value.
pub fn settlings_stay()
    ensures { SettlingsStay }
{}

/// A name that settled to a broken reference is followed to it in every state after.
pub fn breakings_stay()
    ensures { BreakingsStay }
{}

/// What settlings lead to a broken reference, however many, is followed to it in every state after.
pub fn settled_breaks_stay()
    ensures { SettledBreaksStay }
{}

/// What settlings lead to an object of a vat whose cut was noticed is followed to broken `partition` in every state after.
pub fn severed_objects_stay()
    ensures { SeveredObjectsStay }
{}

/// What a vat at rest follows to a broken reference, by settlings, views and cuts, is followed to that broken reference after.
pub fn followed_breaks_stay()
    ensures { FollowedBreaksStay }
{}

/// The first notice of a vat breaks each name of that host that neither settled nor is viewed, and each such gift of that provider that was not opened.
pub fn notices_break()
    ensures { NoticesBreak }
{}

/// Of a vat that is not at rest that is false: a name that waits on a noticed host may settle to null.
pub fn rest_is_needed()
    ensures { RestIsNeeded }
{}

/// After a notice nothing that the vat follows has that host.
pub fn notices_sever()
    ensures { NoticesSever }
{}

/// Once a cut was noticed nothing that the vat follows has that host, in every state after.
pub fn severings_stay()
    ensures { SeveringsStay }
{}

/// Under local numbers no object of another vat comes to be among the names known.
pub fn far_stays_apart()
    ensures { FarStaysApart }
{}

/// A cut that was noticed stays noticed.
pub fn notices_stay()
    ensures { NoticesStay }
{}

/// What has happened and the notes put are added to at the end alone.
pub fn history_grows()
    ensures { HistoryGrows }
{}

/// No problem is thrown out of a step, and nothing leaves it by an ejector: it gives or stops.
pub fn steps_are_quiet()
    ensures { StepsAreQuiet }
{}

/// Receiving a note, whoever sent it, undoes nothing that steps leave as it is.
pub fn receivings_undo_nothing()
    ensures { ReceivingUndoesNothing }
{}

/// A note that tells a vat of a name that it was told of, opens a gift that was opened, or asks of a vat for what that told, does nothing.
pub fn nothing_new_does_nothing()
    ensures { NothingNewDoesNothing }
{}

/// Every other note arrives, unless it leads the vat to a gift that it hosts or knows.
pub fn new_notes_arrive()
    ensures { NewNotesArrive }
{}

/// A note that is received does nothing, or breaks a name that leads back, or arrives.
pub fn each_receiving_is_told()
    ensures { EachReceivingIsTold }
{}
