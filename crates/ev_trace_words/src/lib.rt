//! The words of the lines of a run, and what they stand for: numbers, names, texts, values.
#![tactic(auto)]

pub mod laws;
pub mod parts;
pub mod texts;
pub mod values;
pub mod words;
