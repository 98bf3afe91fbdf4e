//! What is told of a message.

use ev_base::Str;

/// What a history tells of a message that it sends: six cells of a table.
pub struct Row {
    /// The message.
    pub message: Str,
    /// What it is sent on, its verb and its arguments.
    pub what: Str,
    /// The step in which it is sent.
    pub sent: Str,
    /// Where it is carried.
    pub carried: Str,
    /// Where and by what it is taken, or lost, or where it is left.
    pub fate: Str,
    /// What its answer comes to.
    pub answer: Str,
}

impl Drop for Row {
    fn drop(self) {
        let Self {
            message: _message,
            what: _what,
            sent: _sent,
            carried: _carried,
            fate: _fate,
            answer: _answer,
        } = self;
    }
}

/// How wide the columns of a table are, but for the last, in columns of a terminal.
#[derive(Clone, Copy)]
pub struct Widths {
    pub message: usize,
    pub what: usize,
    pub sent: usize,
    pub carried: usize,
    pub fate: usize,
}
