//! What a note that arrives does at its vat, and what a vat learns of names by it.
#![tactic(auto)]

pub mod arriving;
pub mod asking;
pub mod breaking;
pub mod brought;
pub mod delivering;
pub mod gifts;
pub mod host;
pub mod laws;
pub mod learning;
pub mod notice;
pub mod opening;
pub mod receiving;
pub mod receiving_laws;
pub mod viewing;

pub use brought::{Brought, Heard};
pub use host::{Carried, Host, Incoming, Subject};
pub use receiving::Sight;
