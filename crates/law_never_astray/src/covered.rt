//! What the objects of a vat carry, and what a node finds.

ghost use Rattle.law_never_astray.specs.CoveredLaws.{EvaluationsCarry, FormsAreBuilt, NounsAreFound};
ghost use Rattle.law_never_astray.specs.CoveredRuns.{AllCarryInRuns};

/// Each object of a vat carries captures that cover scopes in which its methods and matchers stand: each noun that one
/// of them uses and does not bind itself is bound there or safe, and each that it assigns is a var slot that is there. All
/// that evaluation does keeps it: what an opening turn evaluates of a tree that is accepted, under the names that it is
/// given, and what a turn does with a message. Of a stop nothing is said.
pub fn evaluations_carry()
    ensures { EvaluationsCarry }
{}

/// So in every world of a run of accepted programs the objects of each vat carry such captures: after any of the
/// opening turns, and after any entries of a schedule.
pub fn all_carry_in_runs()
    ensures { AllCarryInRuns }
{}

/// An environment that covers scopes has each of their nouns: reading it gives a value, and what may be assigned is a
/// var slot that is there.
pub fn nouns_are_found()
    ensures { NounsAreFound }
{}

/// The form that an audition tells of a node of the tree can be built: it does not go astray.
pub fn forms_are_built()
    ensures { FormsAreBuilt }
{}
