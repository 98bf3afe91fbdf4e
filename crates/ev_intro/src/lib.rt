//! Introductions: the words that stand for gifts, and the gifts of one vat.
#![tactic(auto)]

pub mod gifts;
pub mod words;

pub use gifts::GiftTable;
pub use words::{DrawFault, Words};
