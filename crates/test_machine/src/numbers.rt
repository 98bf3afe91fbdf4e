//! Runs of several vats in each vat's own numbers, by computing: the text of each, with its frames, is that of the machine's run.

ghost use Rattle.test_machine.specs.Row10 as row_10;
ghost use Rattle.test_machine.specs.Row11Wire as row_11;
ghost use Rattle.test_machine.specs.Row12 as row_12;
ghost use Rattle.test_machine.specs.Row14Wire as row_14;
ghost use Rattle.test_machine.specs.Row16 as row_16;
ghost use Rattle.test_machine.specs.SecondCut as second_cut;
ghost use Rattle.test_machine.specs.SendOnly as send_only;
ghost use Rattle.test_machine.specs.RunsAlike.{RunsAlike};

/// A message sent on an answer that is not there yet.
#[tactic(auto, unfolding(def_run::specs::LocalText::opened_text_by_numbers, crate::specs::Row10::opened_row10))]
pub fn pipelining()
    ensures { RunsAlike row_10.script }
{}

/// An introduction: a reference passes as a gift.
#[tactic(auto, unfolding(def_run::specs::LocalText::opened_text_by_numbers, crate::specs::Row11Wire::opened_row11wire))]
pub fn an_introduction()
    ensures { RunsAlike row_11.script }
{}

/// A partition breaks a gift.
#[tactic(auto, unfolding(def_run::specs::LocalText::opened_text_by_numbers, crate::specs::Row12::opened_row12))]
pub fn a_broken_gift()
    ensures { RunsAlike row_12.script }
{}

/// A promise settles to an object of a third vat, and the way to it is shortened.
#[tactic(auto, unfolding(def_run::specs::LocalText::opened_text_by_numbers, crate::specs::Row14Wire::opened_row14wire))]
pub fn a_shortening()
    ensures { RunsAlike row_14.script }
{}

/// Two gifts that are one object.
#[tactic(auto, unfolding(def_run::specs::LocalText::opened_text_by_numbers, crate::specs::Row16::opened_row16))]
pub fn two_gifts()
    ensures { RunsAlike row_16.script }
{}

/// A second cut and a second notice.
#[tactic(auto, unfolding(def_run::specs::LocalText::opened_text_by_numbers, crate::specs::SecondCut::opened_secondcut))]
pub fn a_second_cut()
    ensures { RunsAlike second_cut.script }
{}

/// A message without an answer.
#[tactic(auto, unfolding(def_run::specs::LocalText::opened_text_by_numbers, crate::specs::SendOnly::opened_sendonly))]
pub fn a_message_without_an_answer()
    ensures { RunsAlike send_only.script }
{}
