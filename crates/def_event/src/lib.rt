//! What a history consists of, and the trace that a reader has of it.
#![tactic(auto)]

pub mod boxed;
pub mod event;
pub mod note;
pub mod raw;
pub mod reference;
pub mod shown;
pub mod trace;

pub use boxed::Boxed;
pub use event::{Addressed, Called, Event, MadeObject, Reacting, Sent};
pub use note::ShownNote;
pub use raw::RawLine;
pub use reference::Reference;
pub use shown::Shown;
pub use trace::Trace;
