//! The operations that vats send each other, how each is spelled in bytes, and how bytes are read.
#![tactic(auto)]

pub mod kind;
pub mod op;
pub mod spots;

pub use kind::Kind;
pub use op::{Desc, Op, Plain, Resolved};
pub use spots::{Part, Parts, Spot};
