//! The nodes of a tree on the stack of frames: how they begin and go on, and the loop that evaluates.
#![tactic(auto)]

pub mod coercions;
pub mod ends;
pub mod guards;
pub mod machine;
pub mod nodes;
pub mod parts;
pub mod patterns;

pub use machine::{evaluate, take_message};
