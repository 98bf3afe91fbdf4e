//! A vat with the names and numbers by which others know it, what each of its steps leaves, and the frames that it puts.
#![tactic(auto)]

pub mod frames;
pub mod hearing;
pub mod names;
pub mod naming_laws;
pub mod notes;
pub mod outcome;
pub mod outgoing;
pub mod resident;
mod starting;
pub mod telling;
pub mod told;

// What crates above name of a vat and of its connections, so that they need not stand on those crates themselves.
pub use ev_vat::{Arrival, Member, Sending, Vat, VatStop};
pub use frames::frame_of;
pub use hearing::told_of;
pub use names::VatNames;
pub use notes::{Noting, shown_note};
pub use outcome::{name_step, tell_lines};
pub use outgoing::Outgoing;
pub use resident::Resident;
pub use told::Told;
