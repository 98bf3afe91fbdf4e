//! The machine: what a vat has and does, as functions that compute, for any names of things.
#![tactic(auto)]
