//! Where evaluation works: the state of a vat, what a scope binds, and the single acts that change them.
#![tactic(auto)]

pub mod audition;
pub mod bindings;
pub mod call;
pub mod coercion;
pub mod data;
pub mod ejector;
pub mod exit;
pub mod form;
pub mod guards;
pub mod nouns;
pub mod object;
pub mod room;
pub mod scope;
pub mod slots;
pub mod tree;

pub use coercion::{Coerced, guard_coerced, native_coerced, null_or};
pub use exit::{Came, Exit};
pub use room::Room;

// What crates above name of a program, so that they need not stand on its crate themselves.
pub use ev_kernel_printer::Program;
