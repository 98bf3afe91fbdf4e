//! What a message brings was sent.

ghost use Rattle.law_uses.specs.Connectivity.MessageLaws.{MessagesStemFromSends};
ghost use Rattle.law_uses.specs.Connectivity.Begotten.{HistoriesAreConnected, OnlyConnectivity};

/// In every world of every run, each message that a name holds, and that of each deliver note under
/// way, was sent: by a line of that vat with the same name, verb, arguments and answer, on a target
/// that leads to that of the message by what names settled to and their views, or by one of another
/// vat from where deliver notes brought it, each time by a note that was carried, with the same name
/// and verb, and with arguments that stand for those that it had. The same is so of each message in a
/// queue and of each that was taken, or it is a reaction, which a line of that vat tells, with its
/// answer; and what reacts on a name is a reaction. So no reaction leaves its vat.
///
/// To what a name settled and as what it is viewed, its vat told by a line. What a note under way
/// tells of a name is what the name leads to at its sender: it passes as that, or leads to an object
/// of the vat at which the note says that it is.
pub fn messages_stem_from_sends()
    ensures { MessagesStemFromSends }
{}

/// In every world of every run, and at its end, each line of the history is connected in the step
/// that told it, whose lines stand together in the history: what it uses was known to the activation
/// that used it. The step is the one that the run took: an opening turn is given the roots that its
/// vat knows by the script, and nothing else.
pub fn histories_are_connected()
    ensures { HistoriesAreConnected }
{}

/// Only connectivity begets connectivity. In every world of every run, and at its end, the target and
/// arguments of each message that was taken were known to the activation that sent it; or, where
/// deliver notes brought it from another vat, they stand for what was. A reaction has for its target what the vat followed the
/// value to that was asked to react.
///
/// An argument passes as what it leads to, by what names settled to and by their views: data, an
/// object or another name, a gift that its sender opened as that, or a list by its members. A
/// reference that is broken passes as its problem, a severed name as `partition`, and a list above
/// the limits as `too heavy`.
pub fn only_connectivity_begets_connectivity()
    ensures { OnlyConnectivity }
{}
