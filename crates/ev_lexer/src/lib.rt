//! The lexer of E: what tokens a text has, by definition, and the code that is held to it: words, operators, and the line
//! ends that are dropped.
#![tactic(auto)]

mod comments;
mod escapes;
pub mod examples;
pub mod lexing;
pub mod line_ends;
mod literals;
pub mod pieces;
mod spellings;
pub mod words;

pub use lexing::{LexFault, lex};
pub use line_ends::drop_line_ends;
pub use words::{operator, word_kind};
