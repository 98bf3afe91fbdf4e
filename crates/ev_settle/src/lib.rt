//! What names settle to: held messages are sent on, names that wait settle, reactions are queued, and other vats are told.
#![tactic(auto)]

pub mod changes;
pub mod closing;
pub mod laws;
pub mod reacting;
pub mod resolver;
pub mod resolving;
pub mod sending;
pub mod settling;
pub mod tasks;

pub use closing::{finish, throw};
pub use reacting::when;
pub use resolver::{Resolution, smash_resolver, tell_resolver};
pub use resolving::resolve;
pub use sending::{send, send_only};
pub use settling::{forward, settle};
