//! What a vat makes of a note as it is received, in runs of honest vats.

ghost use Rattle.law_frame.specs.Heard.Received.{NextNotesAreReceived};

/// The next note is received as it arrives, by any sight by which the receiver knows no gift under the next word, and the
/// sender has no number for a gift that it asks for: where the next word was not drawn before, and where a note that tells
/// what a gift is, or what a name settled to, tells something new.
///
/// That the receiver knows no gift under the next word, and the sender has no number for the gift, is asked of the sight and not
/// shown. No vat of the script may be told twice that it knows a vat, or that it knows itself, and each
/// notice stands behind a cut of the same two vats.
pub fn next_notes_are_received()
    ensures { NextNotesAreReceived }
{}
