//! Prints the form of a kernel tree, and keeps a program with its form.
#![tactic(auto)]

pub mod items;
pub mod names;
pub mod parts;
pub mod pieces;
pub mod printer;
pub mod program;
pub mod tasks;
pub mod walker;

pub use items::{Item, as_items};
pub use printer::print;
pub use program::Program;
pub use walker::free_names;
