//! The reading of the text of a run.
#![tactic(auto)]

mod naming;
pub mod reading;

pub use reading::read_trace;
