//! Why a history is refused: what its lines are about, what is asked of each line, and what is told of one that fails.
#![tactic(auto)]

pub mod fault;
pub mod mark;

pub use fault::{About, Fault, Question, Reason, Refusal};
pub use mark::Mark;
