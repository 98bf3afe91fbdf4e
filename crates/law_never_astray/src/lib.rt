//! That no run of accepted programs goes astray, and what that stands on.
#![tactic(auto)]

pub mod astray;
pub mod covered;
pub mod levels;
pub mod runs;
pub mod scoped;
pub mod things;
