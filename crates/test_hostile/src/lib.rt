//! Runs with hostile vats, by computing.
#![tactic(auto)]

pub mod rows;
