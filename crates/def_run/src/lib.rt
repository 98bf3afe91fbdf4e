//! The run of a script in the machine: worlds, entries, links, costs; and the same run in the numbers of each vat.
#![tactic(auto)]
