//! Fates of messages in runs with hostile vats, by computing.
#![tactic(auto)]

ghost use Rattle.test_hostile_fate.specs.Rows.{Arrives, BringsNone, IsBrought};

/// A message that a frame brings, and that is taken, by computing.
#[tactic(auto, unfolding(crate::specs::Rows::opened_rows))]
pub fn a_message_is_brought()
    ensures { IsBrought }
{}

/// A message of an honest vat that comes to a hostile one, by computing.
#[tactic(auto, unfolding(crate::specs::Rows::opened_rows))]
pub fn a_message_arrives()
    ensures { Arrives }
{}

/// A malformed frame brings no message, by computing.
#[tactic(auto, unfolding(crate::specs::Rows::opened_rows))]
pub fn a_malformed_frame_brings_none()
    ensures { BringsNone }
{}
