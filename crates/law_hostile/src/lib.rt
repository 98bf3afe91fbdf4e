//! Laws of the worlds that are reached with hostile vats.
#![tactic(auto)]

pub mod entering;
pub mod hostile;
