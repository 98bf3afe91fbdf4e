//! Laws of reading a program: the grammar, that what a text is read as is one thing, what it is, and how great.
#![tactic(auto)]

pub mod expanded;
pub mod spelled;

ghost use Rattle.law_reading.specs.Grammar.Lines.{LinesArePlaces};
ghost use Rattle.law_reading.specs.Grammar.Numbers.{NumbersDecideNothing};
ghost use Rattle.law_reading.specs.Grammar.Plain.{PlainIsPlaces};
ghost use Rattle.law_reading.specs.Reading.Laws.{AnswersAgree, OneAnswer, OneTextOneExpansion, OneTreeOneExpansion};
ghost use Rattle.law_reading.specs.Sized.Laws.{WhatIsReadIsSmall};

// Grammar.

/// Law: a token list spells a tree by the lines exactly where it does by the table of places, from which the parser is
/// proved. So by the lines, too, it spells at most one tree.
#[tactic(auto, using(crate::proofs::Grammar::Meanings::lines_are_places))]
pub fn lines_are_places()
    ensures { LinesArePlaces }
{}

/// Law: the same for the plain lines, in which an expression before a block is an expression like any other.
#[tactic(auto, using(crate::proofs::Grammar::Plainness::plain_is_places))]
pub fn plain_is_places()
    ensures { PlainIsPlaces }
{}

/// Law: what is spelled depends on the kinds of the tokens alone, and not on their numbers.
#[tactic(auto, using(crate::proofs::Grammar::Renumbered::numbers_decide_nothing))]
pub fn numbers_decide_nothing()
    ensures { NumbersDecideNothing }
{}

// Reading.

/// Law: what a parser of the grammar answers for a token list is one thing.
#[tactic(auto, using(crate::proofs::Reading::Answered::one_answer))]
pub fn one_token_list_has_one_answer()
    ensures { OneAnswer }
{}

/// Law: two arenas that show one tree have one expansion.
#[tactic(auto, using(crate::proofs::Reading::Arena::one_expansion))]
pub fn one_tree_has_one_expansion()
    ensures { OneTreeOneExpansion }
{}

/// Law: two surface trees of one text have one expansion.
pub fn one_text_has_one_expansion()
    ensures { OneTextOneExpansion }
{}

/// Law: two answers for one text under the same given names tell the same.
#[tactic(auto, using(crate::proofs::Reading::Readings::answers_agree))]
pub fn program_answers_are_one()
    ensures { AnswersAgree }
{}

// Sized.

/// Law: a text of n bytes, no more than 65,536, is read as a tree of at most 14 (n + 1) nodes, whatever names it is given;
/// and each text in that tree is shorter than 2^64.
pub fn what_is_read_is_small()
    ensures { WhatIsReadIsSmall }
{}
