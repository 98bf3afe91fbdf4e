//! What is read of the forms of trees.

ghost use Rattle.law_kernel_form.specs.Laws.{FormOfOneTree, ReadingUndoesPrinting, WhatIsReadIsATree, WhatIsReadPrintsTheSame};

/// The form of a tree is read as that tree.
#[tactic(auto, using(crate::proofs::Undoing::undoes))]
pub fn reading_undoes_printing()
    ensures { ReadingUndoesPrinting }
{}

/// A text is the form of one tree at most.
#[tactic(auto, using(crate::proofs::Undoing::one_tree))]
pub fn a_text_is_the_form_of_one_tree()
    ensures { FormOfOneTree }
{}

/// What is read of a text is a tree, numbered in the order in which the forms begin.
#[tactic(auto, using(crate::proofs::Reached::read_is_tree))]
pub fn what_is_read_is_a_tree()
    ensures { WhatIsReadIsATree }
{}

/// The form of what is read of a text is that text.
#[tactic(auto, using(crate::proofs::Reached::read_is_printed))]
pub fn what_is_read_prints_the_same()
    ensures { WhatIsReadPrintsTheSame }
{}
