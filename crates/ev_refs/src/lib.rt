//! References of one vat: what it knows of names, where they lead, and what waits at them.
#![tactic(auto)]

pub mod changes;
pub mod follow;
pub mod known;
pub mod laws;
pub mod mails;
pub mod natives;
pub mod queue;
pub mod refs;
pub mod search;
pub mod waits;

pub use follow::Place;
pub use known::{Known, Message, Standing, Waiters};
pub use mails::Fresh;
pub use natives::RefReply;
pub use refs::Refs;
