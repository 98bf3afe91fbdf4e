//! A run without hostile vats, as one of the runs in which vats may be hostile: the same worlds, stops and texts.
#![tactic(auto)]

ghost use Rattle.law_instance.specs.Corollaries.{HonestPlaysGiveOneFate, HonestPlaysTellHistories};
ghost use Rattle.law_instance.specs.Honest.{HonestNotesAreReceived, HonestPlaysAreRuns, HonestStepsAreAlike, HonestTextsAreRuns};
ghost use Rattle.law_instance.specs.Rows.{IntroductionIsAccepted, IntroductionIsTold, IntroductionStops};

/// Where no vat is hostile, the next note on a link that is not cut is received by the entries of the vat that it comes to as it
/// arrives: the state after it is the same, and where the word that would be drawn was drawn before, both stop for that reason.
///
/// It is said of each world that the schedule of a script comes through. Asked of the script is what each has that is read.
pub fn honest_notes_are_received()
    ensures { HonestNotesAreReceived }
{}

/// So each entry makes of the scene of such a world the scene of the world that the run goes to, or stops as the run does: nothing
/// is claimed, no position is marked, no frame stands on a link, and the lines are those of the history.
pub fn honest_steps_are_alike()
    ensures { HonestStepsAreAlike }
{}

/// A play without hostile vats, whose doings are the schedule of a script, comes to the world of the script's run, or stops for the
/// same reason, in the same step, with what there was before that step; and so do its opening turns and each front of its doings.
pub fn honest_plays_are_runs()
    ensures { HonestPlaysAreRuns }
{}

/// And its text is the text of the script's run, line for line, without frames and with them, to the closing list or to the line of
/// the stop.
pub fn honest_texts_are_runs()
    ensures { HonestTextsAreRuns }
{}

/// The events among the lines of such a play are the history of the script's run, to its end or to where it stops: so each law of
/// histories is one of such plays.
pub fn honest_plays_tell_histories()
    ensures { HonestPlaysTellHistories }
{}

/// As an example: of each message there is one send at most in them, and no more takes and losses than sends.
pub fn honest_plays_give_one_fate()
    ensures { HonestPlaysGiveOneFate }
{}

/// The laws speak of a worked script in which a vat introduces another to a third, whatever its fuel.
pub fn introductions_are_accepted()
    ensures { IntroductionIsAccepted }
{}

/// By computing: the play of that script without hostile vats has the text of its run, and with little fuel that of a run that stops in
/// a turn.
#[tactic(auto, unfolding(def_hostile::specs::HostileText::opened_hostile_text, crate::specs::Rows::opened_rows))]
pub fn introductions_are_told()
    ensures told { IntroductionIsTold }
    ensures stops { IntroductionStops }
{}
