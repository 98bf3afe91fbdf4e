//! The table of the grammar as code: the moves at each place, the alternatives of each line, and the least heights.
#![tactic(auto)]

pub mod heights;
pub mod lines;
pub mod moves;
pub mod picks;

pub use heights::{low_at, weight_of};
pub use lines::{form_of, more_of, once_more, tower_at};
pub use moves::{ending_of, moves_of};
pub use picks::{is_same, is_stopping, pick_move};
