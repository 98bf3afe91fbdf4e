//! Kernel-E: the nodes of its trees, and the form in which a tree is spelled.
#![tactic(auto)]

pub mod kernel;
pub mod node;
pub mod reader;
pub mod shape;

pub use kernel::Kernel;
pub use node::{Literal, Node};
