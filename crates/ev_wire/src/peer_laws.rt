//! What a vat has for its peers, and what it writes and hears by that, in the machine's terms.

ghost use Rattle.ev_wire.specs.PeerStatements.{StaysFor, WritesAll};

/// What a vat has for its peers stays as it is to be, where the vat sees what has a number as it did before.
pub fn stays_for()
    ensures { StaysFor }
{}

/// What is written of all the notes of a step (`write_all`) are the frames of the run in numbers, and the connections after them are
/// its connections, where each answer that is asked for is new.
pub fn writes_all()
    ensures { WritesAll }
{}
