//! The reading of a program.

ghost use Rattle.ev_reader.specs.Program.{Answers, ExpandAnswers, IsRefusal, LexAnswers, ParseAnswers, ScopeAnswers};

use crate::fault::{ProgramFault, Stage};
use crate::{ScopeFault, Scoped, check};
use def_kernel::Kernel;
use def_syntax::{Sugar, Token};
use ev_base::{Seq, Str};
use ev_expand::{ExpandFault, expand};
use ev_lexer::{LexFault, lex};
use ev_parser::{ParseFault, parse};
use std::alloc::Global;

/// The tokens of a text.
fn tokens_of(alloc: Global, text: &str) -> Result<Seq<Token>, ProgramFault>
    ensures { LexAnswers result text.now }
{
    match lex(alloc, text) {
        Ok(tokens) => Ok(tokens),
        Err(LexFault::At { kind, offset }) => Err(ProgramFault::At(Stage::Lex, kind, offset)),
        Err(LexFault::Memory) => Err(ProgramFault::Memory),
    }
}

/// The surface tree that tokens spell.
fn tree_of(alloc: Global, tokens: &[Token], text: &str) -> Result<Sugar, ProgramFault>
    ensures { ParseAnswers result text.now tokens.now }
{
    match parse(alloc, tokens, text) {
        Ok(tree) => Ok(tree),
        Err(ParseFault::NoSpelling(token)) => Err(ProgramFault::At(Stage::Parse, 0, token)),
        Err(ParseFault::TooNested(token)) => Err(ProgramFault::At(Stage::Nested, 0, token)),
        Err(ParseFault::Memory) => Err(ProgramFault::Memory),
    }
}

/// The expansion of a surface tree.
fn expansion_of(alloc: Global, tree: &Sugar) -> Result<Kernel, ProgramFault>
    ensures { ExpandAnswers result tree.now }
{
    match expand(alloc, tree) {
        Ok(kernel) => Ok(kernel),
        Err(ExpandFault::MisplacedReturn(token)) => {
            Err(ProgramFault::At(Stage::Expand, 1, token))
        }
        Err(ExpandFault::MisplacedBreak(token)) => Err(ProgramFault::At(Stage::Expand, 2, token)),
        Err(ExpandFault::ReservedName(token)) => Err(ProgramFault::At(Stage::Expand, 3, token)),
        Err(ExpandFault::Memory) => Err(ProgramFault::Memory),
    }
}

/// The refusal that tells a fault of scopes.
fn refusal(fault: &ScopeFault) -> ProgramFault
    ensures { IsRefusal result fault.now }
{
    match fault {
        ScopeFault::Unbound(node) => ProgramFault::At(Stage::Scope, 1, node.0),
        ScopeFault::AssignToFinal(node) => ProgramFault::At(Stage::Scope, 2, node.0),
        ScopeFault::BoundTwice(node) => ProgramFault::At(Stage::Scope, 3, node.0),
        ScopeFault::Memory => ProgramFault::Memory,
    }
}

/// A tree whose names are rightly bound.
fn scoped_of(alloc: Global, tree: Kernel, given: &Seq<Str>) -> Result<Scoped, ProgramFault>
    ensures { ScopeAnswers result tree given.now }
{
    match check(alloc, tree, given) {
        Ok(scoped) => Ok(scoped),
        Err(fault) => Err(refusal(&fault)),
    }
}

/// The scoped kernel tree of a text of E under given names, which are final.
///
/// # Errors
///
/// The first stage at which the text is refused, with the kind and the place of the fault there, and `Memory` where memory
/// runs out.
pub fn read_program(alloc: Global, text: &str, given: &Seq<Str>) -> Result<Scoped, ProgramFault>
    ensures { Answers result text.now given.now }
{
    let tokens = tokens_of(alloc, text)?;
    let tree = tree_of(alloc, tokens.as_slice(), text)?;
    let kernel = expansion_of(alloc, &tree)?;
    scoped_of(alloc, kernel, given)
}
