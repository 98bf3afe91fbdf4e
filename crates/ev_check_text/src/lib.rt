//! The judgement on the text of a run: a line on the order of its messages, and a line on its uses.
#![tactic(auto)]

pub mod checking;
pub mod laws;
pub mod telling;

pub use checking::{check_bytes, check_source};
pub use telling::tell;
