//! A frame under way from one vat to another.

ghost use Rattle.std.specs.Prelude.{◌≡◌};

use def_event::ShownNote;
use ev_base::{Msg, Seq};

/// A frame, with what a history tells of it.
#[derive(Drop)]
pub struct Frame {
    pub bytes: Seq<u8>,
    /// The note that it says, as it prints.
    pub note: ShownNote,
    /// The message that it brings, if one.
    pub message: Option<Msg>,
    /// Whether that asks for an answer.
    pub asks: bool,
}

/// What a history tells of a frame.
#[derive(Drop)]
pub struct Label {
    /// The note that it says, as it prints.
    pub note: ShownNote,
    /// The message that it brings, if one.
    pub message: Option<Msg>,
    /// Whether that asks for an answer.
    pub asks: bool,
}

impl Label {
    /// The message that the frame brings, if one.
    pub fn into_message(self) -> Option<Msg>
        ensures { result ≡ self.message }
    {
        let Label { message, .. } = self;
        message
    }
}
