//! Whether the bytes of a frame that a peer sent are lawful, and what a lawful operation names.
#![tactic(auto)]

mod item;
mod judge;
mod look;
mod naming;
mod position;

pub use judge::{Verdict, judge_frame};
pub use naming::named;
