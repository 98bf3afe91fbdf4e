//! The steps of a run and the whole run: each opening turn, each turn, each cut and each notice of one leads where the machine's does,
//! and so does the run.
//!
//! Of a script they ask that no vat is told twice that it knows a vat, or that it knows itself, and that each notice stands behind a cut of
//! the same two vats; so it is of every script that is read (`law_read`).

ghost use Rattle.law_frame.specs.Local.Whole.{WholeRunsMirror, WholeTextsMirror};
ghost use Rattle.law_frame.specs.Local.Joined.{TurnsMirror, NoticesMirror, OpeningsMirror, OthersMirror, RunsMirrorWhereCarriesDo};

/// A turn in the run of a script, from all that stands for what it finds, leads where the machine's does: both go on so, both find nothing
/// to do, or both stop for the same reason.
pub fn turns_mirror()
    ensures { TurnsMirror }
{}

/// So does the notice of a cut.
pub fn notices_mirror()
    ensures { NoticesMirror }
{}

/// And so does each opening turn. It asks nothing of notices.
pub fn opening_turns_mirror()
    ensures { OpeningsMirror }
{}

/// Where each carry of the schedule leads where the machine's does, so does each step.
pub fn steps_mirror_where_carries_do()
    ensures { OthersMirror }
{}

/// And the whole run, to its closing list or to where it stops.
pub fn runs_mirror_where_carries_do()
    ensures { RunsMirrorWhereCarriesDo }
{}

/// The run of a script in each vat's own numbers is the machine's run: both go to the end and stand for one another there, or both stop in the
/// same step for the same reason.
pub fn whole_runs_mirror()
    ensures { WholeRunsMirror }
{}

/// And their texts are one, with the frames and without.
pub fn whole_texts_mirror()
    ensures { WholeTextsMirror }
{}
