//! What evaluation and arrivals are in the machine: acts, turns, and notes that are received.
#![tactic(auto)]

pub mod act_laws;
pub mod arrival_laws;
pub mod evaluation_laws;
pub mod telling;
pub mod values;
