//! Tests of frames: operations and their bytes, and where bytes that are no frame have their fault.
#![tactic(auto)]

#[cfg(test)]
mod frames;
#[cfg(test)]
mod rows;
