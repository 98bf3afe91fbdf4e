//! What a native method answers.

use crate::problem::Problem;
use ev_base::{Seq, Str, Value};

/// What a native method answers. Its values are those of the heap from which it was asked.
#[derive(Drop)]
pub enum Reply {
    /// A value that is there.
    Says(Value),
    /// A text that is to be made.
    Writes(Str),
    /// A list that is to be made.
    Lists(Seq<Value>),
    /// `run` of that value is to be called with the place of each of these and it, in order.
    Iterates(Value, Seq<Value>),
    Fails(Problem),
}
