//! Reading a play: a script that may name hostile vats and inject frames on their links.
#![tactic(auto)]

mod doings;
mod hostile;
pub mod play;
mod reader;

pub use play::{Doing, Play};
pub use reader::{honest_plays_are_scripts, quiet_plays_are_scripts, read_play};
