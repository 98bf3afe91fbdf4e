//! What an auditor asks of a history: its lines in words, each with the step that it belongs to, and the rows that tell what became of each message.
#![tactic(auto)]

pub mod line;
pub mod row;

pub use line::Line;
pub use row::{Row, Widths};
