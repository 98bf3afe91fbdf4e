//! Frames that a script injects: a queue for each ordered pair of vats.
#![tactic(auto)]

pub mod injected;
mod lane;
pub mod laws;
mod telling;

pub use injected::Injected;
pub use laws::starts_are_fresh;
