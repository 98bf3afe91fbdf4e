//! The first line of a history of which a question fails: a message that is taken twice or elsewhere, a name that settles twice, and
//! what a check of uses believes.
#![tactic(auto)]

pub mod faults;
pub mod marks;
pub mod messages;
pub mod names;
pub mod places;
pub mod refusals;
pub mod things;
pub mod values;

pub use refusals::first_refusal;
