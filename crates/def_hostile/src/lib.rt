//! The run of a script in which vats are hostile: frames that are injected, how they are judged, and what the text says of them.
#![tactic(auto)]
