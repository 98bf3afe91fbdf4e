//! The items of a frame from left to right, and the first place that is not allowed.
#![tactic(auto)]

mod walking;
mod walks;

pub use walks::parts;
