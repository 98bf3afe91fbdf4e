//! Whether the lines of a history use, give back, take and carry only what is known to who does so, by the lines alone.
#![tactic(auto)]

pub mod calls;
pub mod changed;
pub mod judge;
pub mod kept;
pub mod lines;
pub mod onward;
pub mod parts;
pub mod places;
pub mod returning;
pub mod sought;
pub mod sources;
pub mod stack;
pub mod unknown;
pub mod unsent;
pub mod using;

pub use judge::judge_uses;
