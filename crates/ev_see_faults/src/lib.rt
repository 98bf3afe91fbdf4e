//! Why a text is no history: the first line that is none, with its number and its words.
#![tactic(auto)]

pub mod faults;

pub use faults::{explain, is_history};
