//! Reads a text of vats, and writes one.
#![tactic(auto)]

mod bodies;
mod heads;
mod lines;
pub mod reading;

pub use bodies::plain_source;
pub use lines::{is_head, lines_of};
pub use reading::{TextFault, read_text};
