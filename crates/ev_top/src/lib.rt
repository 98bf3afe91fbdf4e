//! The top call: from the words of a command and the bytes of its input to the lines of its output.
#![tactic(auto)]

mod at_hand;
mod command;
mod expansion;
pub mod given;
pub mod laws;
mod lines;
pub mod paying;
mod program;
pub mod reply;
pub mod run;
pub mod sources;
mod summary;

pub use at_hand::top_of_bytes;
pub use ev_io::{Refusal, Stage, Status};
pub use paying::pay;
pub use program::top;
pub use reply::{Owed, Prepared};
pub use run::owed_bytes;
