//! Names and messages: what a vat knows of a name, and what becomes of each message.
#![tactic(auto)]

pub mod carry;
pub mod fate;
pub mod names;
pub mod whole;
