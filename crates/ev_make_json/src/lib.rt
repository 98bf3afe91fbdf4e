//! Writes what is told of a script as JSON, as the reader of scripts reads it, and tells what a script in JSON says.
#![tactic(auto)]

mod data;
pub mod writing;

pub use writing::write_script;
