//! One vat: its turns, what it sends and what it settles between them, its connections with others, and its end.
#![tactic(auto)]

pub mod between;
pub mod closing;
mod fitting;
pub mod hearing;
pub mod member;
pub mod sending;
mod starting;
pub mod turn;
pub mod vat;

// What crates above name of a program, so that they need not stand on its crate themselves.
pub use ev_room::Program;
pub use hearing::Arrival;
pub use member::Member;
pub use sending::Sending;
pub use turn::{Ended, new_heap, new_interior, run_message, run_program};
pub use vat::{Vat, VatStop};
