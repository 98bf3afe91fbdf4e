//! A vat is told where a name of another vat leads.

ghost use Rattle.law_order.specs.Arrivals.Notes.{EndedNamesKeep, SettledNamesKeep, ViewedNamesKeep};
ghost use Rattle.law_order.specs.Arrivals.Tellings.{RetellingKeeps, ToldNamesKeep, ToldNamesLead, ToldPassingsKeep};

/// What is ahead stays ahead, and what is doomed stays doomed, where held messages come to go on to elsewhere and
/// links lead where they led by all names by which something comes to them.
///
/// It asks that in both ways all stands by such names, and that lanes lead on from there to such places.
pub fn retelling_keeps()
    ensures { RetellingKeeps }
{}

/// As a vat is told that a name of another vat leads on to a value, to which it settled or which is its view, each
/// reference to the name at that vat leads to where the value leads. All other references lead where they led,
/// in every vat.
pub fn told_names_lead()
    ensures { ToldNamesLead }
{}

/// As a vat is told of a name of another vat, what is ahead stays ahead, what is doomed stays doomed, and each message
/// stands where it stood.
///
/// It asks that what stands on links is the receiver's own, as it is by the machine; that the vat did not notice
/// the name's host; and that what went there on the name comes to a place that no object takes from, to the same
/// vat by a name from which it goes on alike, or behind all that stands on that link.
pub fn told_names_keep()
    ensures { ToldNamesKeep }
{}

/// So does each name that a note brings, whosever it is: what is ahead of its passing stays ahead of it.
///
/// It asks what `told_names_keep` asks, that what stands in front of the name on its link is the receiver's own,
/// and that the place to which what went out comes now follows each place of a name of the vat's own which the
/// other followed.
pub fn told_passings_keep()
    ensures { ToldPassingsKeep }
{}

/// As a vat is told that a name of another vat settled to data, or is broken, order is kept: of each reference,
/// each message, and each name that a note brings. What was sent on the name is doomed now, and was before.
///
/// It asks that what stands on links is the receiver's own.
pub fn ended_names_keep()
    ensures { EndedNamesKeep }
{}

/// As a vat is told that a name of another vat settled to an object of that vat, order is kept: what is sent on the
/// object follows what was sent on the name, over the same link to the same queue.
///
/// It asks that what stands on links is the receiver's own, that both vats are honest, and that the name leads to
/// that object at its host.
pub fn settled_names_keep()
    ensures { SettledNamesKeep }
{}

/// As a vat is told that a name of another vat settled to an object of a third, and has a gift as its view from then
/// on, order is kept.
///
/// It asks that what stands on links is the receiver's own, that the vat and the name's host are honest, that the
/// name leads over a link at its host, or nowhere, and that its view leads to behind all that stands on the link
/// to the host: to the note by which the host is asked to let the gift go.
pub fn viewed_names_keep()
    ensures { ViewedNamesKeep }
{}
