//! What holds of judgements.

ghost use Rattle.ev_check_text.specs.Laws.{IsJudgedOnce};

/// A trace has one judgement: no two texts are due for it.
pub fn one_judgement()
    ensures { IsJudgedOnce }
{}
