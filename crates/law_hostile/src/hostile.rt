//! What holds in every world that is reached, whichever vats are hostile.
//! All but the laws on settlings and notices that stay, and the rows, ask that no vat of the script is told twice that it knows
//! a vat, or that it knows itself.

ghost use Rattle.law_hostile.specs.Hostile.{NamesAreKnown};
ghost use Rattle.law_hostile.specs.Hostile.{NotesNameWhatWasMade};
ghost use Rattle.law_hostile.specs.Hostile.{NotesNameTheirEnds};
ghost use Rattle.law_hostile.specs.Hostile.{NotesCarryTheirEnds};
ghost use Rattle.law_hostile.specs.Hostile.{RunsAreReached};
ghost use Rattle.law_hostile.specs.Hostile.{StrictDeedsKeepOrder};
ghost use Rattle.law_hostile.specs.Hostile.{AnswersFollowMessages};
ghost use Rattle.law_hostile.specs.Hostile.{RunsKnowNames, RunsNameTheirEnds};
ghost use Rattle.law_hostile.specs.Hostile.{WhatAVatHasIsItsOwn};
ghost use Rattle.law_hostile.specs.Hostile.{ViewsWaitInReached};
ghost use Rattle.law_hostile.specs.Hostile.{NoticesStay};
ghost use Rattle.law_hostile.specs.Hostile.{SettlingsStay};
ghost use Rattle.law_hostile.specs.Hostile.{HostileVatsSpeak};

/// Every name in what a vat has is known to it, or is an object, and every message in what it has
/// is one that it has had.
pub fn names_are_known()
    ensures { NamesAreKnown }
{}

/// Every name in a note under way was made.
pub fn notes_name_what_was_made()
    ensures { NotesNameWhatWasMade }
{}

/// Each note is about a name of one of the two vats of its link.
pub fn notes_name_their_ends()
    ensures { NotesNameTheirEnds }
{}

/// Each name that passes in a note, and not as a gift, is of one of the two vats of its link. What the
/// sender of a note calls the answer that it asks for is the name of that answer.
pub fn notes_carry_their_ends()
    ensures { NotesCarryTheirEnds }
{}

/// What is reached without hostile vats is reached where none is named.
pub fn runs_are_reached()
    ensures { RunsAreReached }
{}

/// Worlds are reached in which a hostile vat said something: it may send a message to a root that it
/// knows.
pub fn hostile_vats_speak()
    ensures { HostileVatsSpeak }
{}

/// A name that settled at a vat stays settled there to the same value, whatever the vats do.
pub fn settlings_stay()
    ensures { SettlingsStay }
{}

/// A vat that noticed a cut has noticed it from then on.
pub fn notices_stay()
    ensures { NoticesStay }
{}

/// Each name that is viewed waits on its view, which is known later than it and did not settle.
pub fn views_wait()
    ensures { ViewsWaitInReached }
{}

/// A vat hosts the answers of the messages that it has, the gifts that it has, and each name of which
/// it is to tell others.
pub fn what_a_vat_has_is_its_own()
    ensures { WhatAVatHasIsItsOwn }
{}

/// So the names in each vat of a run of a script are known to it.
pub fn runs_know_names()
    ensures { RunsKnowNames }
{}

/// So the notes of a run of a script name their ends.
pub fn runs_name_their_ends()
    ensures { RunsNameTheirEnds }
{}

/// What a vat knows as the answer of a message at another vat, that vat knows; or the link to it is
/// cut; or the message is under way there, in front of all that names the answer.
pub fn answers_follow_messages()
    ensures { AnswersFollowMessages }
{}

/// Where each name that a hostile vat learns is known to the name's host, and a message is made to be
/// said, what the hostile vat knows of answers is as the order of answers asks.
pub fn strict_deeds_keep_order()
    ensures { StrictDeedsKeepOrder }
{}
