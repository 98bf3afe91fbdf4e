//! Sealed boxes that only their brand opens, the money of mints, and the text of both: lines that say what is done, and a line that answers each.
#![tactic(auto)]

pub mod answers;
pub mod laws;
pub mod mints;
pub mod orders;
pub mod seals;
pub mod telling;

pub use answers::Answer;
pub use mints::{MintFault, Mints, Purse};
pub use orders::{Order, read_orders};
pub use seals::Seals;
pub use telling::tell;
