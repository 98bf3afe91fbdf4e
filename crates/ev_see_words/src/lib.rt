//! What the words of a line of a history say: its kind, its step, what it is about, and the phrases that tell it.
#![tactic(auto)]

pub mod kinds;
pub mod phrases;
pub mod subjects;

pub use kinds::{begins_step, is_act, is_entry, sends, word};
pub use phrases::{carry_phrase, fate_phrase, push_joined, what};
pub use subjects::{is_host, subject};
