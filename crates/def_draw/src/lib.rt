//! Histories as pictures: the text of a sequence diagram.
#![tactic(auto)]
