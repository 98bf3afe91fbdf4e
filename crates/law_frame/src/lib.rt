//! A frame is what its sender writes, and what its receiver reads of it by tables of its own.
#![tactic(auto)]

pub mod alike;
pub mod carrying;
pub mod frames;
pub mod hearing;
pub mod lines;
pub mod local_hearing;
pub mod local_laws;
pub mod numbers;
pub mod parts;
pub mod received;
pub mod stops;
pub mod told;
pub mod whole;
pub mod wire;
