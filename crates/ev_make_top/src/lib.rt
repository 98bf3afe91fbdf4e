//! What `evat_make` answers: the question that its words ask, and what is written for it.
#![tactic(auto)]

pub mod answer;
pub mod asking;
pub mod paying;
pub mod question;
pub mod status;

pub use asking::make;
pub use question::{Question, question_of};
pub use status::MakeStatus;
