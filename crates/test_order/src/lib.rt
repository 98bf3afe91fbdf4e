//! Worked runs held to laws, by computing: the order in which messages are taken, and frames that are read alike on both sides.
#![tactic(auto)]

ghost use Rattle.test_order.specs.OrderRows.{CameFirst, Chained, Cut, Handed, InLists, InOneVat, OnAnother, OnData, Viewed};

pub mod frames;

/// Two messages are sent on one object, or on a promise that holds them. The history of the run is in order, and it is not with their
/// takes exchanged.
#[tactic(auto, unfolding(crate::specs::OrderRows::opened_order_rows))]
pub fn one_vat_keeps_order()
    ensures { InOneVat }
{}

/// A message is before what is sent on a reference that was handed on later: on an object of a third vat, on a promise of the vat that
/// hands it on, and on what has not settled at its host.
#[tactic(auto, unfolding(crate::specs::OrderRows::opened_order_rows))]
pub fn handed_references_keep_order()
    ensures { Handed }
{}

/// So it is where the reference is handed on as a member of a list, or of the list to which an argument settled before its note was
/// put.
#[tactic(auto, unfolding(crate::specs::OrderRows::opened_order_rows))]
pub fn members_keep_order()
    ensures { InLists }
{}

/// So it is where the reference is handed on twice.
#[tactic(auto, unfolding(crate::specs::OrderRows::opened_order_rows))]
pub fn chains_keep_order()
    ensures { Chained }
{}

/// So it is where the vat is told between the two that its reference is elsewhere.
#[tactic(auto, unfolding(crate::specs::OrderRows::opened_order_rows))]
pub fn views_keep_order()
    ensures { Viewed }
{}

/// Where the first message is lost, the second is not taken. A history in which it is would not be in order.
#[tactic(auto, unfolding(crate::specs::OrderRows::opened_order_rows))]
pub fn cuts_keep_order()
    ensures { Cut }
{}

/// What data takes breaks no order.
#[tactic(auto, unfolding(crate::specs::OrderRows::opened_order_rows))]
pub fn data_has_no_order()
    ensures { OnData }
{}

/// A message is not before what is sent on a reference that it did not reach: on one that another message brought, which came to its
/// sender first.
#[tactic(auto, unfolding(crate::specs::OrderRows::opened_order_rows))]
pub fn what_came_first_is_free()
    ensures { CameFirst }
{}

/// Nor is it before what is sent on another promise, also where its own comes to wait for that one: it is sent first then, and taken
/// last.
#[tactic(auto, unfolding(crate::specs::OrderRows::opened_order_rows))]
pub fn other_promises_are_free()
    ensures { OnAnother }
{}
