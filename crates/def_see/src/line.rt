//! A line of a history, with its step.

use ev_base::{Seq, Str};

/// A line in words, with the step that it belongs to.
pub struct Line {
    /// How the step is called: by the number of its entry, or `open V`. Empty before the first step.
    pub label: Str,
    /// The vat at which the step happens. Empty before the first step and where the step is of no vat.
    pub at: Str,
    /// The words of the line.
    pub words: Seq<Str>,
}

impl Drop for Line {
    fn drop(self) {
        let Self {
            label: _label,
            at: _at,
            words: _words,
        } = self;
    }
}
