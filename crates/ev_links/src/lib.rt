//! Names and lists as labels, what leads to what, and chains of names that settle to one another.
#![tactic(auto)]

pub mod chains;
pub mod label;
pub mod links;
pub mod place;

pub use chains::{End, Ends, Plan, Spot, Standing, plan_of};
pub use label::{Kind, Label, list_label, name_label};
pub use links::{Labels, Link, Links, Scope, Way, is_open};
pub use place::place_after;
