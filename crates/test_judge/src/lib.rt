//! Tests of the judge: frames, and all frames that differ from them in one byte or are cut short, by a table that another judge made.
#![tactic(auto)]

#[cfg(test)]
mod judged;
#[cfg(test)]
mod rows;
