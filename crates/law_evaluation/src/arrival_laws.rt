//! Notes that come in, and links that are noticed as cut, at a vat whose references hold what its heap has.

ghost use Rattle.law_evaluation.specs.Arrivals.Statements.{ArrivesInTheVat, ArrivesSound, NoticesInTheVat, NoticesSound, ReceivesInTheVat, ReceivesSound};

/// A note whose values fit the heap is received (`receive`): lists alone come to the heap, and the vat is left sound, also where it stops,
/// which is never for want of a text.
#[tactic(auto, using(crate::proofs::Arrivals::Receives::receives))]
pub fn receives_sound()
    ensures { ReceivesSound }
{}

/// The same of a note that arrives (`arrive`).
#[tactic(auto, using(crate::proofs::Arrivals::Receives::arrive_ends))]
pub fn arrives_sound()
    ensures { ArrivesSound }
{}

/// The same of a vat that notices a link as cut (`notice`).
#[tactic(auto, using(crate::proofs::Arrivals::Arrives::notices))]
pub fn notices_sound()
    ensures { NoticesSound }
{}

/// A note is received as in the machine, by the vat with its gifts that evaluation works in.
pub fn receives_in_the_vat()
    ensures { ReceivesInTheVat }
{}

/// The same of a note that arrives.
pub fn arrives_in_the_vat()
    ensures { ArrivesInTheVat }
{}

/// A link is noticed as cut as in the machine.
#[tactic(auto, using(crate::proofs::Arrivals::Machine::notices))]
pub fn notices_in_the_vat()
    ensures { NoticesInTheVat }
{}
