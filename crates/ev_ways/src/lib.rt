//! Ways between vats: links with their queues, what is put and taken, and what a cut loses.
#![tactic(auto)]

mod cutting;
pub mod frame;
pub mod laws;
pub mod link;
pub mod link_laws;
pub mod row;
pub mod telling;
pub mod way;
pub mod ways;

pub use frame::{Frame, Label};
pub use link::Link;
pub use telling::tell_lost;
pub use ways::Ways;
