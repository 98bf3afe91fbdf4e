//! The parser of E: the one surface tree that tokens spell, or the exact place where they spell none or too high a one.
#![tactic(auto)]

pub mod draft;
pub mod fields;
pub mod forms;
pub mod frames;
pub mod parser;
pub mod read;

pub use parser::{ParseFault, parse};
