//! Worked rows, by computing: programs on the machine, names and numbers beside each other, and the order in which messages are taken.
#![tactic(auto)]

ghost use Rattle.test_machine.specs.Rows.{ChainRow, CutRow, CutViewRow, DataRow, GivenRow, HeldRow, MemberRow, PromiseRow, QueueRow, SettledListRow, ViewRow, WaitingRow};

pub mod cases;
pub mod numbers;
pub mod rows;

/// Two messages to one object are taken in the order in which they were sent.
#[tactic(auto, unfolding(crate::specs::Rows::opened_rows))]
pub fn queues_keep_order()
    ensures { QueueRow }
{}

/// So are two that a promise held.
#[tactic(auto, unfolding(crate::specs::Rows::opened_rows))]
pub fn held_messages_keep_order()
    ensures { HeldRow }
{}

/// So are two that data takes.
#[tactic(auto, unfolding(crate::specs::Rows::opened_rows))]
pub fn data_takes_in_order()
    ensures { DataRow }
{}

/// A reference is handed on to another vat. What that sends on it comes to its host first, and is taken second: behind what was sent
/// before the reference was handed on.
#[tactic(auto, unfolding(crate::specs::Rows::opened_rows))]
pub fn gifts_keep_order()
    ensures { GivenRow }
{}

/// Where the first is lost on a cut link the second is not taken.
#[tactic(auto, unfolding(crate::specs::Rows::opened_rows))]
pub fn cuts_keep_order()
    ensures { CutRow }
{}

/// A vat hands on its own promise.
#[tactic(auto, unfolding(crate::specs::Rows::opened_rows))]
pub fn promises_keep_order()
    ensures { PromiseRow }
{}

/// A reference is handed on as a member of a list.
#[tactic(auto, unfolding(crate::specs::Rows::opened_rows))]
pub fn members_keep_order()
    ensures { MemberRow }
{}

/// It is handed on as a member of the list to which an argument settled.
#[tactic(auto, unfolding(crate::specs::Rows::opened_rows))]
pub fn settled_lists_keep_order()
    ensures { SettledListRow }
{}

/// It is handed on twice.
#[tactic(auto, unfolding(crate::specs::Rows::opened_rows))]
pub fn chains_keep_order()
    ensures { ChainRow }
{}

/// It is handed on before it has settled at its host, where what the gift holds stands behind what it holds.
#[tactic(auto, unfolding(crate::specs::Rows::opened_rows))]
pub fn waiting_gifts_keep_order()
    ensures { WaitingRow }
{}

/// A vat is told that its reference is elsewhere. What it sends there waits for what is under way over the old host.
#[tactic(auto, unfolding(crate::specs::Rows::opened_rows))]
pub fn views_keep_order()
    ensures { ViewRow }
{}

/// Where that is lost on a cut link, what it sends there is not taken.
#[tactic(auto, unfolding(crate::specs::Rows::opened_rows))]
pub fn cut_views_keep_order()
    ensures { CutViewRow }
{}
