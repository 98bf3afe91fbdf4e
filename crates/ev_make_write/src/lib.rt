//! Writes the text of vats for what is told of a script.
#![tactic(auto)]

mod parts;
pub mod same;
pub mod writing;

pub use writing::{text_of, write_text};
