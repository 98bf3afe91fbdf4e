//! What the frames of hostile vats made.
#![tactic(auto)]

pub mod laws;
pub mod outsider;
pub mod outsiders;

pub use laws::outsiders_start;
pub use outsider::Outsider;
pub use outsiders::Outsiders;
