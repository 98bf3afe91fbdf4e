//! A vat with its connections takes in a frame of a peer, whoever that is.
#![tactic(auto)]

pub mod asks;
pub mod judging;
pub mod receiving;

pub use judging::judge;
pub use receiving::{Receipt, receive};
