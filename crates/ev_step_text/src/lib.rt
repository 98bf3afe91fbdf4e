//! The lines of a step of a vat, written straight into a text.
#![tactic(auto)]

pub mod account;
mod held;
mod referring;
mod spelled;
pub mod write;

pub use account::{Account, Form};
pub use write::write_lines;
