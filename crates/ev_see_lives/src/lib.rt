//! The lines of a history, each with its step, and the numbers of the lines that are about each message and each name.
#![tactic(auto)]

pub mod lives;
pub mod placing;

pub use lives::Lives;
pub use placing::place;
