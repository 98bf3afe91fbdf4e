//! What rests in every vat of every world of a run: after any of the opening turns of a script, and
//! after all of them and any entries of a schedule. No vat of the script may be told twice that it
//! knows a vat, or that it knows itself, which the reading of scripts refuses.

ghost use Rattle.law_reference.specs.Reference.AnswerNames.{AnswersAreNamed};
ghost use Rattle.law_reference.specs.Reference.Cuts.{NoticedLinksAreCut};
ghost use Rattle.law_reference.specs.Reference.Hosts.{BreaksStayBroken, HostsRestInRuns, VatsRestInRuns};
ghost use Rattle.law_reference.specs.Reference.Notes.{NotesCarryTheirEnds, NotesNameNobodyNoticed, NotesNameTheirEnds};
ghost use Rattle.law_reference.specs.Reference.Own.{WhatAVatHasIsItsOwn};
ghost use Rattle.law_reference.specs.Reference.Rest.{FollowedBreaksStayBroken, ReferencesRestInRuns, ViewsWaitInRuns};

/// Each name that is viewed waits on its view: the view is known, it came to be known later than the
/// name, it did not settle, and the name is among those that settle with it.
pub fn views_wait()
    ensures { ViewsWaitInRuns }
{}

/// A vat is at rest but for the hosts of what waits: each view is of a name that did not settle, no
/// object of another vat is among the names known, and nothing is followed in a circle.
pub fn references_rest()
    ensures { ReferencesRestInRuns }
{}

/// From any world of a run on, where what waits at a vat has no host whose cut the vat noticed, what
/// the vat follows to a broken reference is followed there to it.
pub fn followed_breaks_stay_broken()
    ensures { FollowedBreaksStayBroken }
{}

/// Where each notice of a schedule stands behind a cut of the same two vats, which are not one:
/// whoever noticed a vat as cut off is another vat, and the links between the two are cut.
pub fn noticed_links_are_cut()
    ensures { NoticedLinksAreCut }
{}

/// A vat hosts the answer of each message that it has: in its queue, held at a name, or among the
/// reactions on one. It hosts each gift that it has for others, and each name of which it is to tell
/// others.
pub fn what_a_vat_has_is_its_own()
    ensures { WhatAVatHasIsItsOwn }
{}

/// Each note that was put on the link from a vat to another is about a name of one of the two. A vat
/// tells only of its own names. It sends messages only to names of the receiver, opens gifts only as
/// these, asks only for these, and asks only of these that they be shortened.
pub fn notes_name_their_ends()
    ensures { NotesNameTheirEnds }
{}

/// Each name that passes in a note, in an argument of a message or in what a name settled to, is of
/// one of the two vats of its link: what is of a third vat passes as a gift. The answer that a note asks
/// for is named in it as at its receiver.
pub fn notes_carry_their_ends()
    ensures { NotesCarryTheirEnds }
{}

/// What the sender of a note calls the answer that it asks for is the name of the answer of that message
/// at the receiver, and where the note asks for none it calls none so. This is said of all notes on
/// links, of those that each vat put in its last step, and of those of any step that may be its next.
pub fn answers_are_named()
    ensures { AnswersAreNamed }
{}

/// Where each notice of a schedule stands behind a cut of the same two vats, which are not one: a
/// note that is under way to a vat, on a link that is not cut, is about no name whose host the vat
/// noticed, and none passes in it but as a gift.
pub fn notes_name_nobody_noticed()
    ensures { NotesNameNobodyNoticed }
{}

/// Where each notice of a schedule stands behind a cut of the same two vats, which are not one: each
/// name that neither settled at a vat nor is viewed there as another has a host whose cut the vat did
/// not notice.
pub fn hosts_rest()
    ensures { HostsRestInRuns }
{}

/// In such a run each vat is at rest, after any of the opening turns and after any entries.
pub fn vats_rest()
    ensures { VatsRestInRuns }
{}

/// From any world of such a run on, what a vat follows to a broken reference is followed there to it
/// ever after.
pub fn breaks_stay_broken()
    ensures { BreaksStayBroken }
{}
