//! The expansion of E's surface tree to the kernel language.
#![tactic(auto)]

pub mod exits;
pub mod expansion;
pub mod expressions;
pub mod marks;
pub mod objects;
pub mod part;
pub mod parts;
pub mod reads;
pub mod table;

pub use expansion::{ExpandFault, expand};
