//! What is known to whom by the lines of a history so far.
#![tactic(auto)]

pub mod facts;
pub mod following;
pub mod found;
pub mod knowledge;
pub mod leads;
pub mod marks;
pub mod runs;

pub use facts::{Activation, Fact, Facts};
pub use following::{Firsts, Following, Goal};
pub use found::{Finding, Found};
pub use knowledge::Knowledge;
pub use leads::tell_leads;
pub use marks::{Holder, Mark, Marks};
pub use runs::Runs;
