//! The frames of an evaluation, and what calls, messages and auditors do on them.
#![tactic(auto)]

pub mod answers;
pub mod audits;
pub mod calls;
pub mod failings;
pub mod frames;
pub mod leaves;
pub mod matchers;
pub mod messages;
pub mod natives;
pub mod now;
pub mod patterns;
pub mod performs;
