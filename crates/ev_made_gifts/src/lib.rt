//! The gifts that a step of a vat made.
#![tactic(auto)]

pub mod made;

pub use made::gifts_made;
