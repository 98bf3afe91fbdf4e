//! Integers of 128 bits with a sign: their arithmetic, and how they are read and written.
#![tactic(auto)]

pub mod arithmetic;
pub mod numerals;

pub use arithmetic::{IntOp, NumFault, apply, power_is_exact};
pub use numerals::{print, read_decimal};
