//! Evaluation and references tell what happened in the same lines.

ghost use Rattle.law_evaluation.specs.Acts.Statements.{LinesTell};

/// What happened in a vat, as evaluation reads it, are the lines that the laws of references ask for.
#[tactic(auto, using(crate::proofs::Acts::Lines::line_tells))]
pub fn lines_tell()
    ensures { LinesTell }
{}
