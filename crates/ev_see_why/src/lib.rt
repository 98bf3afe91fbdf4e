//! Where and why a history is refused: all verdicts on it.
#![tactic(auto)]

pub mod judging;
pub mod slots;

pub use judging::judge;
