//! The theorem on numbers, with no premise on the run: its tables are tables and its notes are read alike
//! in every run in which each notice stands behind a cut of the same two vats, which are not one. Every
//! script that is read has that, and tells no vat twice that it knows a vat, nor that it knows itself,
//! which the laws ask as well.

ghost use Rattle.law_frame.specs.Frame.Notes.{EveryNoteIsReadAlike, EveryPositionIsKeptAlike, EveryArrivalStands};
ghost use Rattle.law_frame.specs.Frame.Steps.{EntriesByNumbersStand, OpeningTurnsByNumbersStand};
ghost use Rattle.law_frame.specs.Frame.Exports.{PositionsStay, StatesGoOn, OnlyOwnStepsAsk, NoToldAnswerIsAskedFor, NothingToldIsAskedFor, EveryPositionStays, EveryStateGoesOn};
ghost use Rattle.law_frame.specs.Frame.Chain.{EntriesChainOn, OpeningTurnsChainOn, RunsByNumbersStand, RunsAreTakenInNumbers};
ghost use Rattle.law_frame.specs.Frame.States.{EachStateHasNumbers, EntriesAreTakenInNumbers, OpeningTurnsAreTakenInNumbers};

/// The note that stands first on a link that is not cut is read alike: its receiver reads the frame by its
/// own tables and numbers as the one machine reads the note in names.
pub fn every_note_is_read_alike()
    ensures { EveryNoteIsReadAlike }
{}

/// Once the receiver of the next note heard it, it has by position what the sender exported to it in the
/// notes that have arrived and in this one, and knows as many names as are known once the note was read in
/// names.
pub fn every_position_is_kept_alike()
    ensures { EveryPositionIsKeptAlike }
{}

/// What a vat that keeps numbers makes of the next note, by what it hears in the frame, stands for what the
/// one machine makes of it.
pub fn every_arrival_stands()
    ensures { EveryArrivalStands }
{}

/// What an entry makes of each vat in its own numbers stands for what it makes of it in names: a turn, the
/// arrival of a note as it is heard, the notice of a cut; and a vat whose step it is not stays as it is.
///
/// It is said of every state in numbers that stands for what the step finds, and numbers are read by the
/// names and messages that the vat has in the end and by what others had exported to it before.
pub fn entries_by_numbers_stand()
    ensures { EntriesByNumbersStand }
{}

/// So does the opening turn of each vat, whose root is the first name that it knows, and the roots that it
/// is given the next ones. This asks nothing of notices.
pub fn opening_turns_by_numbers_stand()
    ensures { OpeningTurnsByNumbersStand }
{}

/// There is such a state in numbers before each step: each name in its place by its number. This asks
/// nothing of notices, but that each vat of the script knows only vats of the script.
pub fn each_state_has_numbers()
    ensures { EachStateHasNumbers }
{}

/// So each vat takes each entry in its own numbers, from the state in numbers that stands for the state in
/// which the entry finds it, and ends in one that stands for its state after, or takes no step.
pub fn entries_are_taken_in_numbers()
    ensures { EntriesAreTakenInNumbers }
{}

/// And so it takes its opening turn.
pub fn opening_turns_are_taken_in_numbers()
    ensures { OpeningTurnsAreTakenInNumbers }
{}

/// What others exported to a vat has the same positions after a step, where the vat asks none of them in
/// that step for what that one told it before. This asks nothing of notices.
pub fn positions_stay()
    ensures { PositionsStay }
{}

/// Then what stands for a state of the vat by the exports before the step does so by those after it.
pub fn states_go_on()
    ensures { StatesGoOn }
{}

/// By what is no step of it a vat asks for nothing, whatever the script: so the steps of others move no
/// position for it.
pub fn only_own_steps_ask()
    ensures { OnlyOwnStepsAsk }
{}

/// No vat asks another for an answer that this one told it before, in any step, whether a link between them
/// is cut or not: who sends a message on to a vat has no answer of it from there. This asks nothing of
/// notices.
pub fn no_told_answer_is_asked_for()
    ensures { NoToldAnswerIsAskedFor }
{}

/// Nor for anything else that it was told: a gift is asked for where it arrives, and as long as it is under
/// way no note that was ever put tells it. So in no step of any run does a vat ask another for the first time
/// for what that one told it before. This asks nothing of notices.
pub fn nothing_told_is_asked_for()
    ensures { NothingToldIsAskedFor }
{}

/// So what others exported to a vat keeps its positions in each step.
pub fn every_position_stays()
    ensures { EveryPositionStays }
{}

/// And what stands for a state of a vat by the exports before a step does so by those after it.
pub fn every_state_goes_on()
    ensures { EveryStateGoesOn }
{}

/// What an entry leaves to a vat in its own numbers is what the next one begins with: the state that the
/// step gives, or the one before where the vat takes no step, with the fuel and the draws of the world and
/// nothing put yet, stands for what the next step finds, by the tables of that world. So the laws of the
/// steps of a vat in numbers follow one another through the whole run, with no gap between two of them.
pub fn entries_chain_on()
    ensures { EntriesChainOn }
{}

/// And so does what an opening turn leaves. This asks nothing of notices.
pub fn opening_turns_chain_on()
    ensures { OpeningTurnsChainOn }
{}

/// So a vat goes through all entries of a run in its own numbers, each taken from what the one before it
/// left, from any state in numbers that stands for the one that it has after the opening turns: each of its
/// steps gives, and the state at the end stands for its state in names there.
pub fn runs_by_numbers_stand()
    ensures { RunsByNumbersStand }
{}

/// And there is such a state to begin with, where each vat of the script knows only vats of it: each name in
/// its place by its number.
pub fn runs_are_taken_in_numbers()
    ensures { RunsAreTakenInNumbers }
{}
