//! The tables of a connection: exports, imports, questions and answers, and by what number each name goes there.
#![tactic(auto)]

pub mod connection;
pub mod fault;
pub mod laws;
mod names;
pub mod numbering;
pub mod numeral;
mod places;
mod thing;

pub use connection::Connection;
pub use fault::TableFault;
pub use numbering::{describe, is_numbered, number};
pub use numeral::Number;
