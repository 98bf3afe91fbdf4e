//! What `evat_see` answers: the question that its words ask, and what is written for it.
#![tactic(auto)]

pub mod answer;
pub mod asking;
pub mod paying;
pub mod question;
pub mod status;

pub use asking::see;
pub use question::{Question, question_of};
pub use status::SeeStatus;
