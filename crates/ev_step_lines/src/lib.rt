//! The lines of a step of a vat.
#![tactic(auto)]

pub mod evaluated;
pub mod lines;
pub mod referred;
pub mod shown;
mod single;
pub mod table;
pub mod teller;
pub mod write;

pub use lines::push_lines;
pub use table::Table;
pub use teller::Teller;
