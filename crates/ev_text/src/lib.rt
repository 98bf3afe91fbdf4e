//! Texts of E: how they are spelled, and what stands in the lines of a command.
#![tactic(auto)]

mod digits;
pub mod spellings;
mod text;
pub mod texts;
pub mod words;

pub use digits::{bytes_32, integer, number, spelled_number};
pub use spellings::{EscapeFault, escape, unquote, unquote_undoes_quote};
pub use text::{lines, split, text_of};
pub use texts::{push_quoted, push_quoted_character, push_shortened, quote};
pub use words::{begins_identifier, continues_identifier, is_identifier, is_keyword, push_verb};
