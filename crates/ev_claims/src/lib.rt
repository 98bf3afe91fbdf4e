//! The gifts of a run that have names: those that draws made, and those that frames named before.
#![tactic(auto)]

pub mod gift;
pub mod laws;
pub mod names;
pub mod set;

pub use gift::GiftId;
pub use laws::{named_gifts_keep_their_names, names_are_shown, unclaimed_lines_stay};
pub use names::GiftNames;
pub use set::GiftSet;
