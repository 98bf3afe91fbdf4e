//! How texts, characters and words are spelled.
#![tactic(auto)]
