//! What a text of vats says: the vats of a script with their sources as they are, and its schedule.
#![tactic(auto)]

pub mod told;

pub use told::{Told, ToldVat};
