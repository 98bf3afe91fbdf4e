//! What one vat holds: objects, var slots, lists, texts and activations; the fuel that is left, and what happened in a step.
#![tactic(auto)]

pub mod cursor;
pub mod happened;
pub mod heap;
pub mod kept;
pub mod lines;
pub mod micro;
pub mod packed;
pub mod shared;
pub mod verbs;

pub use cursor::{Cursor, Entry};
pub use happened::Happened;
pub use heap::{Heap, ListFault};
pub use kept::{
    AuditView, Bound, Capture, Caught, Cell, FreeName, GuardKind, Listed, Shape, Thing,
};
pub use lines::Lines;
pub use micro::Micro;
pub use packed::Held;
pub use shared::Shared;
