//! The rows of the messages that a history sends, and of its roots, as a table.
#![tactic(auto)]

pub mod outcomes;
pub mod rows;
pub mod table;

pub use table::messages_text;
