//! Histories, and how their lines are written.
#![tactic(auto)]

pub mod hex;
pub mod history;
pub mod line;
pub mod names;
pub mod notes;
pub mod raw;
pub mod values;
pub mod words;

pub use history::History;
