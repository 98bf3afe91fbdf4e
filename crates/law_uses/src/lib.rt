//! Only connectivity begets connectivity: what is known, and by what right each use of a history is made.
#![tactic(auto)]

pub mod connected;
pub mod message;
pub mod uses_in_runs;

ghost use Rattle.law_uses.specs.KnownUses.KnownUses.{CallsGiveBackWhatIsKnown, HistoriesHoldUses, LinesUseWhatIsKnown, RunsHoldUses};
ghost use Rattle.law_uses.specs.Running.Facts.{ActivationsBeginOnce, LinesTellWhatIsGiven, OpeningsAreTold};
ghost use Rattle.law_uses.specs.Running.Running.{LinesTellWhatRuns, TurnsTellWhatRuns};
ghost use Rattle.law_uses.specs.Running.Settled.{SettlingsStandInRuns};
ghost use Rattle.law_uses.specs.SettledApart.Settled.{SettledNamesAreShownApart};
ghost use Rattle.law_uses.specs.ShownApart.ShownApart.{EachKnownGiftTellsItsProvider, KnownNamesAreShownApart};
ghost use Rattle.law_uses.specs.Uses.Made.{ThingsAreMadeOnceInRuns};
ghost use Rattle.law_uses.specs.Uses.Messages.{LinesStandAtTheirVats, ListsAreToldInRuns, MessagesAreAsSent};

// Uses.

// Uses.

/// In every run, also in one that stopped, each message is taken with the arguments that it was sent with, and what is
/// carried was there in the line before of the message, or is what that leads to by the lines so far, or a gift.
///
/// It is said of the events that its history shows, by the judge of texts of runs (`def_event`), whatever words were
/// drawn: of each take line, the names in its arguments, lists taken apart, are those of the last carry line of the
/// message in the whole history, or else of the line that sends it; and of each carry line of a deliver note, each name
/// is a gift, or is reached from what the line before of that message has, by list, settle and view lines.
pub fn messages_are_as_sent()
    ensures { MessagesAreAsSent }
{}

/// In every run, also in one that stopped, each line of a vat stands at the place of that vat: behind the line that tells
/// of a step of it come the lines of that step, up to the next such line.
pub fn lines_stand_at_their_vats()
    ensures { LinesStandAtTheirVats }
{}

/// In every world of every run, each list of a vat was told by a line of the vat with its members, as one that it made or
/// that came, and each such line tells of a list with those members.
pub fn lists_are_told_in_runs()
    ensures { ListsAreToldInRuns }
{}

/// In every world of every run, at most one line of a vat says that it made the object, ejector, audition or resolver of a
/// number. So the first line that says with which captures an object was made is the only one.
pub fn things_are_made_once_in_runs()
    ensures { ThingsAreMadeOnceInRuns }
{}

// Running.

/// In every run, also in one that stopped, each activation of a vat begins by one line: that which opens the vat begins
/// its activation 0, and a message that is taken, or a call that begins one, each other. By the lines before it, it has
/// not begun.
pub fn activations_begin_once()
    ensures { ActivationsBeginOnce }
{}

/// In every run, also in one that stopped, what a line of a vat makes known to an activation the lines tell as given to
/// it, whatever words were drawn: the arguments that it begins with, what it made, got, read or was given back, and the
/// answers of what it sent.
pub fn lines_tell_what_is_given()
    ensures { LinesTellWhatIsGiven }
{}

/// In every run, also in one that stopped, the lines tell of the activation that opens a vat that it does, and of each
/// audition that it is one.
pub fn openings_are_told()
    ensures { OpeningsAreTold }
{}

/// In every world of every run, to what a line of a vat says that a name settled, the name is settled at the vat. So the
/// lines of a vat tell of a name to one value alone that it settled.
pub fn settlings_stand_in_runs()
    ensures { SettlingsStandInRuns }
{}

/// Where the machine says of an activation, by the lines of a step so far, which object's code it runs, the lines of the
/// run say so too: its target was followed to that object by the first line that tells of each settling, before the line
/// that began it.
///
/// It asks that the names which settled at a vat are shown as different names and that no object settles, and of the step
/// that what settled before it was told, that what leads to an object of the vat does so by settlings alone, and that
/// what a call that begins an activation is on, and what takes a message, leads to an object.
pub fn lines_tell_what_runs()
    ensures { LinesTellWhatRuns }
{}

/// In a run, also in one that stopped, whatever the machine says by the lines of a step so far of which object's code an
/// activation runs, the lines of the run say too. In a turn a name of another vat, or one that stands for another, settles
/// to nothing but what is broken, so each way to an object goes by settlings, which the lines tell.
///
/// It asks that no vat is told twice that it knows a vat, that notices stand behind their cuts, that the names which settled
/// at a vat are shown as different names, and of the step that each call that begins an activation is on what leads to an
/// object of the vat, and that the promises it makes are the vat's own.
pub fn turns_tell_what_runs()
    ensures { TurnsTellWhatRuns }
{}

// Shown apart.

/// Each draw has one provider, of whom all notes that were put, all gifts at their hosts and all gifts that vats know
/// tell: the key of a gift that a vat knows tells the provider of its word.
///
/// So it is in every run in which each notice stands behind a cut of the same two vats, as every script that is read has
/// it. No vat of the script may be told twice that it knows a vat, or that it knows itself.
pub fn each_known_gift_tells_its_provider()
    ensures { EachKnownGiftTellsItsProvider }
{}

/// Names that vats of a world know, be it one vat or two, are shown as different names where they differ: in every world
/// of such a run, at its end, and in the world at which it stopped.
///
/// A history shows a gift by its host and the place of its word among the words drawn, and not by its key.
pub fn known_names_are_shown_apart()
    ensures { KnownNamesAreShownApart }
{}

// Settled apart.

/// Names of which lines of a vat say that they settled are shown as different names where they differ, by the words that
/// were drawn in the run: in every run, also in one that stopped, in which each notice stands behind a cut of the same two
/// vats, as every script that is read has it. No vat of the script may be told twice that it knows a vat, or that it
/// knows itself.
pub fn settled_names_are_shown_apart()
    ensures { SettledNamesAreShownApart }
{}

// Known uses.

/// In every run, also in one that stopped, each line uses only what is known by the lines before it to the activation
/// that uses it, or what the line itself makes.
///
/// It is said of the events that its history shows, by the judge of texts of runs (`def_event`). It asks that each vat of
/// the script knows each other once and that each notice stands behind its cut, as scripts that are read have it, and that
/// names which settled at one vat are shown as different names.
pub fn lines_use_what_is_known()
    ensures { LinesUseWhatIsKnown }
{}

/// In every such run, what a call gives back is known, by the lines before, to the activation that the call began, or to
/// its caller where it began none, or an audition gave it as a guard: by the lines before the call, what was called is
/// followed to that audition, and is told to be one.
pub fn calls_give_back_what_is_known()
    ensures { CallsGiveBackWhatIsKnown }
{}

/// In every such run the judge of uses finds no line that fails: besides what lines use and calls give back, messages are
/// taken with the arguments that they were sent with, and what is carried was there in the line before of the message, or
/// is what that leads to, or a gift.
pub fn histories_hold_uses()
    ensures { HistoriesHoldUses }
{}

/// In every run, also in one that stopped, of a script whose vats know each other once and whose notices stand behind
/// their cuts, as scripts that are read have it: as the words drawn in the run show its history, the judge of uses finds
/// no line that fails.
pub fn runs_hold_uses()
    ensures { RunsHoldUses }
{}
