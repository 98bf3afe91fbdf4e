//! Laws of lawful frames: what the bytes are, what the operation says, and that it is heard.
#![tactic(auto)]

ghost use Rattle.law_judge.specs.Statements.{LawfulIsHeard, LawfulIsHeardInNumbers, LawfulIsSpelled, LawfulMeetsThePoints, LawfulNumbersStandThere, MeetingIsLawful};

/// The bytes of a lawful frame are the one spelling of an operation, and nothing follows it.
pub fn lawful_is_spelled()
    ensures { LawfulIsSpelled }
{}

/// Each number in a lawful operation is there or, of a position, the next one; each question is the next one; each vat is there and is
/// not the sender, nor the receiver unless a name settled there; and what a name settled to is no name between the two.
pub fn lawful_meets_the_points()
    ensures { LawfulMeetsThePoints }
{}

/// Under each number by which a lawful operation names an export of the receiver, or an answer of the sender's question, something stands.
pub fn lawful_numbers_stand_there()
    ensures { LawfulNumbersStandThere }
{}

/// An operation that has a spelling and says no more than it may is lawful in that spelling: so a frame is refused for nothing else.
pub fn meeting_is_lawful()
    ensures { MeetingIsLawful }
{}

/// A lawful frame is heard: the reading of its operation by a connection with those counts gives a note, and the imports behind it have its
/// new positions.
pub fn lawful_is_heard()
    ensures { LawfulIsHeard }
{}

/// The same at a vat that works in numbers of its own.
pub fn lawful_is_heard_in_numbers()
    ensures { LawfulIsHeardInNumbers }
{}
