//! What a run with hostile vats wrote stays written, and prints as the code prints it.
#![tactic(auto)]

pub mod laws;

pub use laws::{lines_keep_their_text, printed_lines_are_shown};
