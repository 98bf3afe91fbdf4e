//! Vats on links: the run of a script.
#![tactic(auto)]

mod carrying;
mod closing;
pub mod events;
mod exporting;
mod finishing;
mod going;
mod losing;
mod pushing;
pub mod run;
mod starting;
pub mod world;
pub mod writing;
pub mod written;

pub use events::{Ran, run_events};
pub use run::RunEnd;
pub use writing::Unfinished;
pub use written::write_run;

// What programs and tests name of a vat by itself, so that they need not stand on its crate.
pub use ev_resident::{Vat, VatStop};
pub use ev_room::Program;
