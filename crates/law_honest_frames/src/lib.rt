//! Frames of honest vats are received as they arrive, so a play without hostile vats is the run of its script in the vats' own numbers too.
#![tactic(auto)]

ghost use Rattle.law_honest_frames.specs.Frames.{HonestFramesAreReceived, HonestPlaysAreRunsInNumbers, HonestTextsInNumbersAreRuns};

/// In each state of the run of an accepted script in numbers, what the receiver of the next frame on a way that is not cut hears in it tells
/// it something, and it makes of that, as it receives it, what it makes of it as it arrives; or both stop, since the word that they would draw
/// was drawn before.
///
/// Of frames nothing is asked: they are those that honest vats put.
pub fn honest_frames_are_received()
    ensures { HonestFramesAreReceived }
{}

/// So the run with hostile vats in the vats' own numbers is, where no vat is hostile, the run in numbers: after each front of it, and to its
/// closing list or to where it stops.
pub fn honest_plays_are_runs_in_numbers()
    ensures { HonestPlaysAreRunsInNumbers }
{}

/// And it has the text of the machine's run, line for line, without frames and with them.
pub fn honest_texts_in_numbers_are_runs()
    ensures { HonestTextsInNumbersAreRuns }
{}
