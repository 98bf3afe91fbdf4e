//! A history as the text of a sequence diagram, in Mermaid.
#![tactic(auto)]

pub mod diagram;
pub mod items;
pub mod labels;
pub mod lanes;

pub use diagram::sequence_diagram;
