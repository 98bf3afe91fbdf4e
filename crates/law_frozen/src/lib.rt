//! Laws of the machine about DeepFrozen.
#![tactic(auto)]

pub mod frozen;
