//! The moves of a world in which an adversary puts frames of bytes, and how a fact of each move comes to hold of each world that is so reached.
#![tactic(auto)]
