//! Laws by which the run with hostile vats in the vats' own numbers is the run in names, step by step.
#![tactic(auto)]

ghost use Rattle.law_hostile_mirror.specs.Doings.{DoingsMirror, PlaysHaveOneText};
ghost use Rattle.law_hostile_mirror.specs.Gifts.{GiftsMirror};
ghost use Rattle.law_hostile_mirror.specs.Made.{DeedsAreCounted, MadeMirror, NewNamesMirror};
ghost use Rattle.law_hostile_mirror.specs.Own.{NoticesMirror, OpeningsMirror, TurnsMirror};
ghost use Rattle.law_hostile_mirror.specs.Plays.{ClosingsMirror, PlaysMirror, TextsMirror};
ghost use Rattle.law_hostile_mirror.specs.Receives.{ReceivingsGoTogether};
ghost use Rattle.law_hostile_mirror.specs.Sights.{SightsAgreeInScenes};
ghost use Rattle.law_hostile_mirror.specs.Steps.{HonestStepsMirror};
ghost use Rattle.law_hostile_mirror.specs.Swallows.{CarriesToHostileVatsMirror};

/// The gifts that draws made are the same by a list of them and by the notes that honest vats put: a step adds to the list what its notes tell.
pub fn gifts_mirror()
    ensures { GiftsMirror }
{}

/// A step of an honest vat leaves the two runs standing for one another, where what it left in numbers stands for what it left in names: every other
/// vat, the ways with what was put on them, the gifts that were made, and the lines.
pub fn honest_steps_mirror()
    ensures { HonestStepsMirror }
{}

/// A turn of an honest vat leads to what stands for one another, or stops both, or finds nothing to take in both. Asked is that no two of the vat's
/// numbers stand for one name where it ends, and of what it tells and puts where it goes.
pub fn turns_mirror()
    ensures { TurnsMirror }
{}

/// So does the notice of a cut at an honest vat.
pub fn notices_mirror()
    ensures { NoticesMirror }
{}

/// So does the opening turn of an honest vat, which is as it was at the start.
pub fn openings_mirror()
    ensures { OpeningsMirror }
{}

/// The closing list is the same in both: what is left at honest vats, nothing at hostile ones, and what is left on the ways.
pub fn closings_mirror()
    ensures { ClosingsMirror }
{}

/// Where each opening turn of an honest vat and each doing of a play leads to what stands for one another, so does the whole play; or both stop in
/// the same step, for the same reason.
pub fn plays_mirror()
    ensures { PlaysMirror }
{}

/// What stands for one another has one text, with the frames and without.
pub fn texts_mirror()
    ensures { TextsMirror }
{}

/// A note that comes in is received in numbers as in names, whoever sent it, and ends alike, wherever it ends: it tells nothing in both, or leads back in both, or
/// arrives in both. Asked is that it was read alike, and that the tables tell the same of gifts known and of names that have a number.
pub fn receivings_go_together()
    ensures { ReceivingsGoTogether }
{}

/// What an honest vat put is carried to a hostile vat in both: it is off the link, its line is told with the same bytes, and the record of that vat
/// makes nothing of it. Asked is that no message has a number there once it was heard.
pub fn carries_to_hostile_vats_mirror()
    ensures { CarriesToHostileVatsMirror }
{}

/// Each thing that is done in a play leads to what stands for one another, and so does the whole play, where what comes to honest vats does: turns, opening
/// turns, cuts, notices, injections, malformed frames, frames and notes that come to hostile vats, and the closing list. Asked of the scenes in names is that no two numbers of
/// an honest vat stand for one name where its steps end, and what they tell and put.
pub fn doings_mirror()
    ensures { DoingsMirror }
{}

/// So the text of such a play in the vats' own numbers is its text in names, with the frames and without.
pub fn plays_have_one_text()
    ensures { PlaysHaveOneText }
{}

/// What the tables of an honest vat tell of a note that comes in is the same in both: which gifts of other hosts it knows as gifts, and which of its own names
/// have a number for the sender.
pub fn sights_agree()
    ensures { SightsAgreeInScenes }
{}

/// The record of a hostile vat makes what is new in a frame, and its message, and nothing else but to know names; nothing stops it.
pub fn deeds_are_counted()
    ensures { DeedsAreCounted }
{}

/// The numbers of what is new in a frame have the names of what is new.
pub fn new_names_mirror()
    ensures { NewNamesMirror }
{}

/// Once a frame made these, the counts and numbers of its sender stand for its record and what it has exported.
pub fn made_mirror()
    ensures { MadeMirror }
{}
