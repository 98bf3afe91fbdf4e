//! What the entries of a vat leave of the names in a note that arrives there.

ghost use Rattle.law_hostile.specs.Entering.{EnteringKeepsEnds, EnteringKeepsMade};

/// Each name in a note that was made was made as the entry that it is of the vat at which the note arrives.
pub fn entering_keeps_made()
    ensures { EnteringKeepsMade }
{}

/// A note about a name of one of two vats stays so by the entries of the receiver.
pub fn entering_keeps_ends()
    ensures { EnteringKeepsEnds }
{}
