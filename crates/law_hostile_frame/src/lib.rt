//! Laws of the run with hostile vats in the vats' own numbers: what it is where no vat is hostile, and what it has in common with the run
//! in names.
#![tactic(auto)]

ghost use Rattle.law_hostile_frame.specs.Counts.{CountsAgree, NamedTablesAgree, VerdictsAgree};
ghost use Rattle.law_hostile_frame.specs.Cuts.{CutsMirror, MalformedFramesMirror};
ghost use Rattle.law_hostile_frame.specs.Honest.{PlaysAreRunsInNumbers, StepsAlike};
ghost use Rattle.law_hostile_frame.specs.Steps.{EventsMirror, IdleNoticesMirror, IdleTurnsMirror, InjectionsMirror, LinesMirror, StartsMirror, UnreadFramesMirror};

/// Where no vat is hostile, each entry makes of the cast of a state the cast of the state that the run in numbers goes to, or stops as
/// that run does. Asked is that what its receiver hears in the first frame of a way tells it something, and is received as it arrives.
pub fn steps_are_alike()
    ensures { StepsAlike }
{}

/// A play without hostile vats goes in numbers where the run in numbers of its script goes: its opening turns, each front of its doings, and
/// the whole, with the closing list; or it stops as that run does. The same is asked of each state that the schedule comes through.
pub fn plays_are_runs_in_numbers()
    ensures { PlaysAreRunsInNumbers }
{}

/// Where what a vat has in numbers for a peer stands for what it has in names, a judge finds the same in both: as many exports, answers and
/// questions, and imports of the same kinds.
pub fn counts_agree()
    ensures { CountsAgree }
{}

/// So the verdict on each frame is the same: the same place of a fault, or the same operation with the same new positions.
pub fn verdicts_agree()
    ensures { VerdictsAgree }
{}

/// And the connection with each name in its number's place, by which a frame is read for its line, is the one in names.
pub fn named_tables_agree()
    ensures { NamedTablesAgree }
{}

/// At the start the scene and the cast of a play stand for one another, whatever its script and whoever is hostile.
pub fn starts_mirror()
    ensures { StartsMirror }
{}

/// A line that changes nothing leaves the two runs standing for one another.
pub fn lines_mirror()
    ensures { LinesMirror }
{}

/// So does an event that changes nothing.
pub fn events_mirror()
    ensures { EventsMirror }
{}

/// Bytes that are injected stand behind the same raw frames in both runs, or are refused in both, since the link is cut in both.
pub fn injections_mirror()
    ensures { InjectionsMirror }
{}

/// A turn of a hostile vat is idle in both.
pub fn idle_turns_mirror()
    ensures { IdleTurnsMirror }
{}

/// A notice at a hostile vat is a line in both.
pub fn idle_notices_mirror()
    ensures { IdleNoticesMirror }
{}

/// An injected frame that comes to a hostile vat is taken off and told in both.
pub fn unread_frames_mirror()
    ensures { UnreadFramesMirror }
{}

/// A cut of a link takes the same notes, frames and raw frames off both ways, and loses the same messages, in both.
pub fn cuts_mirror()
    ensures { CutsMirror }
{}

/// Where notices at honest vats do, and the numbers of the receiver stand for names that are told apart, a frame that is malformed leads to what
/// stands for one another: it is malformed at the same place in both, and its line, the cut and the notice are the same; or the notice stops
/// both, with what there was before the frame.
pub fn malformed_frames_mirror()
    ensures { MalformedFramesMirror }
{}
