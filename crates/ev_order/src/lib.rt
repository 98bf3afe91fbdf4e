//! Whether the messages of a trace were taken in order.
#![tactic(auto)]

pub mod chains;
pub mod graph;
pub mod judge;
pub mod last;
pub mod mentions;
pub mod over;
pub mod spread;
pub mod walk;

pub use judge::judge_order;
