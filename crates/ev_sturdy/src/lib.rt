//! Sturdy references: a host that finds an object by the digest of the number shown, a guest that holds references for as long as their connection lasts, and the text of both: lines that say what is done, and a line that answers each.
#![tactic(auto)]

pub mod answers;
pub mod laws;
pub mod sheet;
pub mod sturdy;
pub mod telling;
pub mod text_laws;

pub use answers::{Answer, Reply};
pub use sheet::{Line, Sheet, read_sheet};
pub use sturdy::{Side, Sturdy, SturdyFault, Used};
pub use telling::{Told, tell};
