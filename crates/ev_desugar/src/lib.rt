//! The rows of the expansion: what each form of E's surface is in the kernel language, by what its parts are there.
#![tactic(auto)]

pub mod asking;
mod expressions;
pub mod lists;
pub mod loops;
pub mod objects;
pub mod words;

pub use expressions::{assign, binary, body, conditional, made_list, null, prefix, put, send};
pub use loops::{awaited, closure, escaped, for_loop, tried, while_loop};
pub use objects::{
    defined_function, defined_object, defined_var, leave, noun_guard, plain_method, to_method,
};
pub use words::{character, number, text, verb_behind};
