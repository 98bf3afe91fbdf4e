//! What is printed of a run is read again, and its uses and its order are judged alike.
#![tactic(auto)]

pub mod events;
pub mod texts;
pub mod values;
pub mod words;

ghost use Rattle.law_trace.specs.Seen.Laws.{OrderIsReadAgain, OrderOfRenumbered, OrderOfWhatIsSeen, OrderWithoutFrames};
ghost use Rattle.law_trace.specs.Shown.Shown.{HistoriesAreShownInOrder};
ghost use Rattle.law_trace.specs.Told.Told.{LinesAreInPlace, MessagesAreNamed, NamesAreShownApart, RunsAreShownInOrder, WhatIsCarriedWasSent};
ghost use Rattle.law_trace.specs.UsesSeen.Laws.{UsesAreReadAgain, UsesOfRenumbered, UsesOfRunsAreReadAgain, UsesOfWhatIsSeen, UsesWithoutFrames};

// Trace.

// Uses seen.

/// The uses of a history are judged as those of what is seen of it, where a long text is spelled as its line shows it: by
/// one answer, and of each line by each of the four points.
pub fn uses_of_what_is_seen()
    ensures { UsesOfWhatIsSeen }
{}

/// A history holds uses exactly if it does without the lines that show frames, and each of the four points holds of each
/// line of the one exactly if it does of each of the other.
pub fn uses_without_frames()
    ensures { UsesWithoutFrames }
{}

/// The uses of a history are judged as those of it with other numbers for its vats, where no two vats have one number.
pub fn uses_of_renumbered()
    ensures { UsesOfRenumbered }
{}

/// What is read of the text of events, of a run that ends and of one that stops with such a line, is judged as the
/// events: it holds uses exactly if they do, and else fails at the same line.
///
/// It asks of the events what reading asks (`law_trace::texts_are_numbered`): that they are such as are read, and that no
/// more than 16 names are found in their lines.
pub fn uses_are_read_again()
    ensures { UsesAreReadAgain }
{}

/// What is read of the text that is printed of a history, without its frames, holds uses exactly if the history does, and
/// each of the four points holds of each of its lines exactly if it does of each of the history. So of what is proved of
/// the lines of runs with frames, `check` says it of the text.
///
/// It asks what `uses_are_read_again` asks, of the events that show no frame.
pub fn uses_of_runs_are_read_again()
    ensures { UsesOfRunsAreReadAgain }
{}

// Order text.

// Shown.

/// A history in which no object takes a message before each that is before it was taken is shown by lines of which the judge
/// of texts says the same, whatever words were drawn. Each line of a vat is to stand at the place of its vat, messages are
/// to be named as such, each that is carried was sent before, and names in what is sent and carried are to be shown as
/// different names where they differ. A passing that a text does not show, of a member of a list, orders no less.
pub fn histories_are_shown_in_order()
    ensures { HistoriesAreShownInOrder }
{}

// Told.

/// In the history of each run each line of a vat stands behind lines at whose end the judge of order has that vat, whatever
/// words were drawn: also in a run that stops.
pub fn lines_are_in_place()
    ensures { LinesAreInPlace }
{}

/// In the history of each run each message that a line carries from one vat to another is sent by a line before it: also in
/// a run that stops.
pub fn what_is_carried_was_sent()
    ensures { WhatIsCarriedWasSent }
{}

/// In the history of each run what lines send, carry and take is named as a message: also in a run that stops.
///
/// No vat of the script may be told twice that it knows a vat, or that it knows itself.
pub fn messages_are_named()
    ensures { MessagesAreNamed }
{}

/// In the history of each run names on which lines send, that they send as arguments, or that stand for arguments in what
/// they carry, are shown as different names where they differ, by the words that were drawn in the run: also in a run that
/// stops. Each of them is an object, or known to a vat from then on.
///
/// So it is in every run in which each notice stands behind a cut of the same two vats, as every script that is read has
/// it. No vat of the script may be told twice that it knows a vat, or that it knows itself.
pub fn names_are_shown_apart()
    ensures { NamesAreShownApart }
{}

/// Where the history of a run is in order, so are the events by which it is shown, with their frames, as the judge of texts
/// has it.
///
/// So it is in every run in which each notice stands behind a cut of the same two vats, as every script that is read has
/// it. No vat of the script may be told twice that it knows a vat, or that it knows itself.
pub fn runs_are_shown_in_order()
    ensures { RunsAreShownInOrder }
{}

// Seen.

/// What is seen of a history that is in order is in order, where a long text is spelled as its line shows it.
pub fn order_of_what_is_seen()
    ensures { OrderOfWhatIsSeen }
{}

/// A history that is in order is so without the lines that show frames.
pub fn order_without_frames()
    ensures { OrderWithoutFrames }
{}

/// A history that is in order is so with other numbers for its vats, where no two vats have one number.
pub fn order_of_renumbered()
    ensures { OrderOfRenumbered }
{}

/// Where the events of a history that is in order are printed without their frames, with such a line of a stop behind them,
/// what is read of the text is in order.
///
/// It asks of the events what reading asks (`law_trace::texts_are_numbered`): that they are such as are read, and that no
/// more than 16 names are found in their lines.
pub fn order_is_read_again()
    ensures { OrderIsReadAgain }
{}
