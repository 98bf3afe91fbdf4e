//! Evaluation in the inside of a vat is the machine's.

ghost use Rattle.law_evaluation.specs.Evaluation.Evaluation.{ExpressionsAreTheMachines, MessagesAreTheMachines, PatternsAreTheMachines};

/// An expression of any tree is evaluated in the code's terms as in the machine, at each depth, in each scope and each inside of a vat
/// that turns leave behind: it gives, throws, leaves or stops as there, and leaves the vat that is left there. Texts
/// stand for those of the end of the turn, so that a value stands for one thing while the heap grows.
pub fn expressions_are_the_machines()
    ensures { ExpressionsAreTheMachines }
{}

/// The same of a pattern, which is bound to a value, with an ejector.
pub fn patterns_are_the_machines()
    ensures { PatternsAreTheMachines }
{}

/// The same of what a turn runs that takes a message: at data, at primitives, at objects, ejectors and resolvers. At a promise and at an
/// object of another vat both go astray, since no message is taken there.
pub fn messages_are_the_machines()
    ensures { MessagesAreTheMachines }
{}
