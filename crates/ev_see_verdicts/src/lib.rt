//! The verdicts on a history: the lines and points at which they fail, and their text.
#![tactic(auto)]

pub mod order;
pub mod telling;
pub mod uses;
pub mod verdicts;

pub use order::Overtaking;
pub use telling::told_text;
pub use uses::{Point, Unfounded};
pub use verdicts::{Verdicts, all_yes};
