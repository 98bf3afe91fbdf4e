//! Reading a script: which bytes are one, and which rule is the first that others break.
#![tactic(auto)]

pub mod entries;
pub mod head;
pub mod json;
pub mod reader;
pub mod schedule;
pub mod script;
pub mod vats;

pub use reader::read_script;
pub use script::{Entry, Script, ScriptFault, VatScript};
