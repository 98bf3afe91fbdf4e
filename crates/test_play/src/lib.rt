//! Tests of the reader of plays: texts, and what each is read as, by a table that another reader made.
#![tactic(auto)]

#[cfg(test)]
mod played;
#[cfg(test)]
mod rows;
