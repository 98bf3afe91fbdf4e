//! Worked rows of the expansion, by computing.
#![tactic(auto)]

pub mod examples;
