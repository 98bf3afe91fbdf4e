//! What the bytes on a link say does not hang on the pieces in which they came.

ghost use Rattle.ev_ways.specs.LinkStatements.{BytesTell, PiecesJoin};

/// Two links on which the same bytes stand have the same frames, and the same bytes of the next one.
pub fn bytes_tell()
    ensures { BytesTell }
{}

/// A link that takes two pieces is as one that takes them as one piece, and so it is of any number of them.
pub fn pieces_join()
    ensures { PiecesJoin }
{}
