//! Frames that come in, whoever sent them: how a vat judges them, and that it hears what is lawful.
#![tactic(auto)]

pub mod judging;
pub mod laws;

pub use judging::judge;
