//! Reads a program: its tokens, its tree, its expansion, and whether each noun of it is bound.
#![tactic(auto)]

pub mod accepted;
pub mod checker;
pub mod fault;
pub mod reader;
pub mod scan;
pub mod scope;
pub mod scope_fault;
pub mod task;
pub mod visits;

pub use accepted::Scoped;
pub use checker::check;
pub use fault::{ProgramFault, Stage};
pub use reader::read_program;
pub use scope_fault::ScopeFault;
