//! The lines of a run, read by their words.
#![tactic(auto)]

mod acts;
pub mod lines;
mod notes;
