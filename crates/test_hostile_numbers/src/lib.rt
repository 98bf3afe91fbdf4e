//! Runs with hostile vats in the vats' own numbers beside the same runs in names, by computing.
#![tactic(auto)]

pub mod rows;
pub mod stops;
