//! Tokens and trees of a text of E, and its grammar as a finite table, with the proof that it is read exactly with one token of lookahead.
#![tactic(auto)]

ghost use Rattle.def_syntax.specs.Exact.{AnswersExactly, OneTree};

pub mod form;
pub mod place;
pub mod sugar;
pub mod syntax;
pub mod token;

pub use form::Form;
pub use place::{
    Caught, Context, Definition, Ending, Head, Move, Moves, Named, Place, Role, Series,
};
pub use sugar::{Sugar, SugarNode};
pub use syntax::{Line, Shape, Tail, Word};
pub use token::{Token, TokenKind};

/// Law: a token list spells at most one tree.
#[tactic(auto, using(crate::proofs::Verdicts::one_tree))]
pub fn spells_one_tree()
    ensures { OneTree }
{}

/// Law: the machine with a stack and one token of lookahead answers exactly what the grammar says.
#[tactic(auto, using(crate::proofs::Answers::answer_exact))]
pub fn answers_exactly()
    ensures { AnswersExactly }
{}
