//! Operations, read from bytes and written to bytes.
#![tactic(auto)]

pub mod codec;
pub mod fault;
pub mod kind;
pub mod limits;
pub mod numbers;
mod reading;
pub mod text;
mod writing;

pub use codec::{decode, encode, one_spelling};
