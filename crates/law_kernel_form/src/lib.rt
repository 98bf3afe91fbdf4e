//! A kernel tree and its form in text tell the same.
#![tactic(auto)]

pub mod printing;
