//! The text of a run as it was read.

use crate::event::Event;
use ev_base::{Seq, Str};

/// What the text of a run says. Vats are numbered from 0 in the order in which their names first stand in the text.
pub struct Trace {
    /// An event for each line, in order; a line that says how the run stopped is none. A text of more than 32 characters
    /// stands here as its line spells it: the first 32 between quotes, `+`, and the count of the others.
    pub history: Seq<Event>,
    /// The name of each vat, at the place of its number.
    pub names: Seq<Str>,
    /// The last line, without its line feed, where it says how the run stopped.
    pub stop: Option<Str>,
}

impl Drop for Trace {
    fn drop(self) {
        let Self {
            history: _history,
            names: _names,
            stop: _stop,
        } = self;
    }
}
