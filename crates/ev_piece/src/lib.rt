//! Pieces of a kernel tree, put together. A piece is the list of its nodes in the order in which its form is read from left
//! to right; a node in it names each of its parts by how many places behind the node that part begins.
#![tactic(auto)]

pub mod build;
pub mod copy;
pub mod expressions;
pub mod objects;
pub mod placing;

pub use copy::copied;
pub use expressions::{
    call, def, escape, escape_catch, finally, hide, if_, lit, match_bind, noun, seq, set, try_catch,
};
pub use objects::{any, final_pattern, list, matcher, method, object, variable, via};
pub use placing::placed;
