//! The surface node of a node that has been read.

ghost use Rattle.std.specs.Prelude.{◌≡◌, IfOk, slice_get};
ghost use Rattle.ev_parser.specs.Surface.{IsFormOf, for_form, is_part, name_if, surface, verb_if};
ghost use Rattle.def_syntax.specs.declared.token.TokenKind.TheVariants as kinds;
ghost use Rattle.def_syntax.specs.declared.syntax.Shape.TheVariants as shapes;

use crate::draft::{Node, Part};
use crate::fields::{
    before, behind, catches, caught_at, front, guard_of, is_part, last_tree, rest_of, tail,
    text_at, tree_at, tree_if, trees, word_text,
};
use def_syntax::{Form, Shape, Token, TokenKind, Word};
use ev_base::{Memory, Str};
use std::alloc::Global;

/// A number, a text or a character.
fn literal(
    alloc: Global,
    text: &str,
    tokens: &[Token],
    first: Word,
    parts: &[Part],
) -> Result<Form, Memory>
    ensures { IfOk result (λ form. IsFormOf shapes.Literal text.now tokens.now first parts.now form) }
{
    let _ = parts;
    let value = word_text(alloc, text, tokens, first)?;
    Ok(match first.kind {
        TokenKind::Number => Form::Number(value),
        TokenKind::Character => Form::Character(value),
        _ => Form::Text(value),
    })
}

/// The verb of a send, if there is one.
fn send_verb(
    alloc: Global,
    text: &str,
    tokens: &[Token],
    parts: &[Part],
) -> Result<Option<Str>, Memory>
    ensures { IfOk result (λ verb. verb ≡ verb_if text.now tokens.now parts.now) }
{
    if is_part(parts, 2, TokenKind::OpenParen) {
        return Ok(None);
    }
    let verb = text_at(alloc, text, tokens, parts, 2)?;
    Ok(Some(verb))
}

/// The name of an object, if there is one.
fn object_name(
    alloc: Global,
    text: &str,
    tokens: &[Token],
    parts: &[Part],
) -> Result<Option<Str>, Memory>
    ensures { IfOk result (λ name. name ≡ name_if text.now tokens.now parts.now) }
{
    if is_part(parts, 0, TokenKind::Ignore) {
        return Ok(None);
    }
    let name = text_at(alloc, text, tokens, parts, 0)?;
    Ok(Some(name))
}

/// A `for`.
fn for_form(parts: &[Part]) -> Form
    ensures { result ≡ for_form (is_part kinds.FatArrow (slice_get parts.now 1)) parts.now }
{
    if is_part(parts, 1, TokenKind::FatArrow) {
        Form::For(
            Some(tree_at(parts, 0)),
            tree_at(parts, 2),
            tree_at(parts, 4),
            tree_at(parts, 5),
        )
    } else {
        Form::For(
            None,
            tree_at(parts, 0),
            tree_at(parts, 2),
            tree_at(parts, 3),
        )
    }
}

/// A noun as an expression.
fn noun(
    alloc: Global,
    text: &str,
    tokens: &[Token],
    first: Word,
    parts: &[Part],
) -> Result<Form, Memory>
    ensures { IfOk result (λ form. IsFormOf shapes.Noun text.now tokens.now first parts.now form) }
{
    let noun = word_text(alloc, text, tokens, first)?;
    Ok(Form::Noun(noun))
}

/// A list.
fn list(
    alloc: Global,
    text: &str,
    tokens: &[Token],
    first: Word,
    parts: &[Part],
) -> Result<Form, Memory>
    ensures { IfOk result (λ form. IsFormOf shapes.List text.now tokens.now first parts.now form) }
{
    let members = trees(alloc, parts)?;
    Ok(Form::List(members))
}

/// A block.
fn block(
    alloc: Global,
    text: &str,
    tokens: &[Token],
    first: Word,
    parts: &[Part],
) -> Result<Form, Memory>
    ensures { IfOk result (λ form. IsFormOf shapes.Block text.now tokens.now first parts.now form) }
{
    let body = trees(alloc, parts)?;
    Ok(Form::Block(body))
}

/// A `try`.
fn attempt(
    alloc: Global,
    text: &str,
    tokens: &[Token],
    first: Word,
    parts: &[Part],
) -> Result<Form, Memory>
    ensures { IfOk result (λ form. IsFormOf shapes.Try text.now tokens.now first parts.now form) }
{
    let caught = catches(alloc, tail(parts))?;
    Ok(Form::Try(
        tree_at(parts, 0),
        caught,
        tree_if(behind(parts, TokenKind::Finally), 0),
    ))
}

/// A `fn`.
fn function(
    alloc: Global,
    text: &str,
    tokens: &[Token],
    first: Word,
    parts: &[Part],
) -> Result<Form, Memory>
    ensures { IfOk result (λ form. IsFormOf shapes.Function text.now tokens.now first parts.now form) }
{
    let patterns = trees(alloc, front(parts))?;
    Ok(Form::Function(patterns, last_tree(parts)))
}

/// A call.
fn call(
    alloc: Global,
    text: &str,
    tokens: &[Token],
    first: Word,
    parts: &[Part],
) -> Result<Form, Memory>
    ensures { IfOk result (λ form. IsFormOf shapes.Call text.now tokens.now first parts.now form) }
{
    let arguments = trees(alloc, tail(parts))?;
    Ok(Form::Call(tree_at(parts, 0), arguments))
}

/// An index form.
fn index(
    alloc: Global,
    text: &str,
    tokens: &[Token],
    first: Word,
    parts: &[Part],
) -> Result<Form, Memory>
    ensures { IfOk result (λ form. IsFormOf shapes.Index text.now tokens.now first parts.now form) }
{
    let arguments = trees(alloc, tail(parts))?;
    Ok(Form::Index(tree_at(parts, 0), arguments))
}

/// A call of a verb.
fn verb_call(
    alloc: Global,
    text: &str,
    tokens: &[Token],
    first: Word,
    parts: &[Part],
) -> Result<Form, Memory>
    ensures { IfOk result (λ form. IsFormOf shapes.VerbCall text.now tokens.now first parts.now form) }
{
    let verb = text_at(alloc, text, tokens, parts, 2)?;
    let arguments = trees(alloc, tail(parts))?;
    Ok(Form::VerbCall(tree_at(parts, 0), verb, arguments))
}

/// A send.
fn send(
    alloc: Global,
    text: &str,
    tokens: &[Token],
    first: Word,
    parts: &[Part],
) -> Result<Form, Memory>
    ensures { IfOk result (λ form. IsFormOf shapes.Send text.now tokens.now first parts.now form) }
{
    let verb = send_verb(alloc, text, tokens, parts)?;
    let arguments = trees(alloc, tail(parts))?;
    Ok(Form::Send(tree_at(parts, 0), verb, arguments))
}

/// A prefix operator.
fn prefix(
    alloc: Global,
    text: &str,
    tokens: &[Token],
    first: Word,
    parts: &[Part],
) -> Result<Form, Memory>
    ensures { IfOk result (λ form. IsFormOf shapes.Prefix text.now tokens.now first parts.now form) }
{
    let operator = word_text(alloc, text, tokens, first)?;
    Ok(Form::Prefix(operator, tree_at(parts, 0)))
}

/// An operator between two expressions.
fn binary(
    alloc: Global,
    text: &str,
    tokens: &[Token],
    first: Word,
    parts: &[Part],
) -> Result<Form, Memory>
    ensures { IfOk result (λ form. IsFormOf shapes.Binary text.now tokens.now first parts.now form) }
{
    let operator = text_at(alloc, text, tokens, parts, 1)?;
    Ok(Form::Binary(tree_at(parts, 0), operator, tree_at(parts, 2)))
}

/// An assignment to a noun.
fn assign(
    alloc: Global,
    text: &str,
    tokens: &[Token],
    first: Word,
    parts: &[Part],
) -> Result<Form, Memory>
    ensures { IfOk result (λ form. IsFormOf shapes.Assign text.now tokens.now first parts.now form) }
{
    let noun = word_text(alloc, text, tokens, first)?;
    let operator = text_at(alloc, text, tokens, parts, 0)?;
    Ok(Form::Assign(noun, operator, tree_at(parts, 1)))
}

/// An assignment to an index form.
fn assign_index(
    alloc: Global,
    text: &str,
    tokens: &[Token],
    first: Word,
    parts: &[Part],
) -> Result<Form, Memory>
    ensures { IfOk result (λ form. IsFormOf shapes.AssignIndex text.now tokens.now first parts.now form) }
{
    let arguments = trees(alloc, front(tail(parts)))?;
    Ok(Form::AssignIndex(tree_at(parts, 0), arguments, last_tree(parts)))
}

/// A `return`, `break` or `continue`.
fn leave(
    alloc: Global,
    text: &str,
    tokens: &[Token],
    first: Word,
    parts: &[Part],
) -> Result<Form, Memory>
    ensures { IfOk result (λ form. IsFormOf shapes.Leave text.now tokens.now first parts.now form) }
{
    let word = word_text(alloc, text, tokens, first)?;
    Ok(Form::Leave(word, tree_if(parts, 0)))
}

/// An object.
fn object(
    alloc: Global,
    text: &str,
    tokens: &[Token],
    first: Word,
    parts: &[Part],
) -> Result<Form, Memory>
    ensures { IfOk result (λ form. IsFormOf shapes.DefineObject text.now tokens.now first parts.now form) }
{
    let name = object_name(alloc, text, tokens, parts)?;
    let auditors = trees(alloc, before(parts, TokenKind::OpenBrace))?;
    let members = trees(alloc, behind(parts, TokenKind::OpenBrace))?;
    Ok(Form::DefineObject(name, auditors, members))
}

/// A function.
fn define_function(
    alloc: Global,
    text: &str,
    tokens: &[Token],
    first: Word,
    parts: &[Part],
) -> Result<Form, Memory>
    ensures { IfOk result (λ form. IsFormOf shapes.DefineFunction text.now tokens.now first parts.now form) }
{
    let name = text_at(alloc, text, tokens, parts, 0)?;
    let patterns = trees(alloc, before(parts, TokenKind::CloseParen))?;
    let auditors = trees(alloc, front(behind(rest_of(parts), TokenKind::Implements)))?;
    Ok(Form::DefineFunction(
        name,
        patterns,
        guard_of(rest_of(parts)),
        auditors,
        last_tree(parts),
    ))
}

/// A definition by `var`.
fn define_var(
    alloc: Global,
    text: &str,
    tokens: &[Token],
    first: Word,
    parts: &[Part],
) -> Result<Form, Memory>
    ensures { IfOk result (λ form. IsFormOf shapes.DefineVar text.now tokens.now first parts.now form) }
{
    let name = text_at(alloc, text, tokens, parts, 0)?;
    Ok(Form::DefineVar(
        name,
        guard_of(parts),
        tree_if(behind(parts, TokenKind::Exit), 0),
        last_tree(parts),
    ))
}

/// A noun as a pattern.
fn final_pattern(
    alloc: Global,
    text: &str,
    tokens: &[Token],
    first: Word,
    parts: &[Part],
) -> Result<Form, Memory>
    ensures { IfOk result (λ form. IsFormOf shapes.FinalPattern text.now tokens.now first parts.now form) }
{
    let name = word_text(alloc, text, tokens, first)?;
    Ok(Form::FinalPattern(name, guard_of(parts)))
}

/// A `var` pattern.
fn var_pattern(
    alloc: Global,
    text: &str,
    tokens: &[Token],
    first: Word,
    parts: &[Part],
) -> Result<Form, Memory>
    ensures { IfOk result (λ form. IsFormOf shapes.VarPattern text.now tokens.now first parts.now form) }
{
    let name = text_at(alloc, text, tokens, parts, 0)?;
    Ok(Form::VarPattern(name, guard_of(parts)))
}

/// A list pattern.
fn list_pattern(
    alloc: Global,
    text: &str,
    tokens: &[Token],
    first: Word,
    parts: &[Part],
) -> Result<Form, Memory>
    ensures { IfOk result (λ form. IsFormOf shapes.ListPattern text.now tokens.now first parts.now form) }
{
    let members = trees(alloc, parts)?;
    Ok(Form::ListPattern(members))
}

/// A noun as a guard.
fn noun_guard(
    alloc: Global,
    text: &str,
    tokens: &[Token],
    first: Word,
    parts: &[Part],
) -> Result<Form, Memory>
    ensures { IfOk result (λ form. IsFormOf shapes.NounGuard text.now tokens.now first parts.now form) }
{
    let name = word_text(alloc, text, tokens, first)?;
    let arguments = trees(alloc, parts)?;
    Ok(Form::NounGuard(name, arguments))
}

/// A member by `to`.
fn to(
    alloc: Global,
    text: &str,
    tokens: &[Token],
    first: Word,
    parts: &[Part],
) -> Result<Form, Memory>
    ensures { IfOk result (λ form. IsFormOf shapes.To text.now tokens.now first parts.now form) }
{
    let verb = text_at(alloc, text, tokens, parts, 0)?;
    let patterns = trees(alloc, before(parts, TokenKind::CloseParen))?;
    Ok(Form::To(verb, patterns, guard_of(rest_of(parts)), last_tree(parts)))
}

/// A member by `method`.
fn method(
    alloc: Global,
    text: &str,
    tokens: &[Token],
    first: Word,
    parts: &[Part],
) -> Result<Form, Memory>
    ensures { IfOk result (λ form. IsFormOf shapes.Method text.now tokens.now first parts.now form) }
{
    let verb = text_at(alloc, text, tokens, parts, 0)?;
    let patterns = trees(alloc, before(parts, TokenKind::CloseParen))?;
    Ok(Form::Method(verb, patterns, guard_of(rest_of(parts)), last_tree(parts)))
}

/// The whole.
fn program(
    alloc: Global,
    text: &str,
    tokens: &[Token],
    first: Word,
    parts: &[Part],
) -> Result<Form, Memory>
    ensures { IfOk result (λ form. IsFormOf shapes.Program text.now tokens.now first parts.now form) }
{
    let body = trees(alloc, parts)?;
    Ok(Form::Program(body))
}

/// The surface node of a node that has been read.
pub fn form_of(alloc: Global, text: &str, tokens: &[Token], node: &Node) -> Result<Form, Memory>
    ensures { IfOk result (λ form. form ≡ surface text.now tokens.now node.now.shape node.now.first node.now.parts.items) }
{
    let first = node.first;
    let parts = node.parts.as_slice();
    match node.shape {
        Shape::Literal => literal(alloc, text, tokens, first, parts),
        Shape::Noun => noun(alloc, text, tokens, first, parts),
        Shape::List => list(alloc, text, tokens, first, parts),
        Shape::Group => Ok(Form::Group(tree_at(parts, 0))),
        Shape::Block => block(alloc, text, tokens, first, parts),
        Shape::If => Ok(Form::If(tree_at(parts, 1), tree_at(parts, 3), tree_if(parts, 5))),
        Shape::While => Ok(Form::While(tree_at(parts, 1), tree_at(parts, 3))),
        Shape::For => Ok(for_form(parts)),
        Shape::Escape => Ok(Form::Escape(
            tree_at(parts, 0),
            tree_at(parts, 1),
            caught_at(parts, 3, 4),
        )),
        Shape::Try => attempt(alloc, text, tokens, first, parts),
        Shape::When => Ok(Form::When(tree_at(parts, 1), tree_at(parts, 4), caught_at(parts, 6, 7))),
        Shape::Function => function(alloc, text, tokens, first, parts),
        Shape::Call => call(alloc, text, tokens, first, parts),
        Shape::Index => index(alloc, text, tokens, first, parts),
        Shape::VerbCall => verb_call(alloc, text, tokens, first, parts),
        Shape::Send => send(alloc, text, tokens, first, parts),
        Shape::Prefix => prefix(alloc, text, tokens, first, parts),
        Shape::Binary => binary(alloc, text, tokens, first, parts),
        Shape::MatchBind => Ok(Form::MatchBind(tree_at(parts, 0), tree_at(parts, 2))),
        Shape::Assign => assign(alloc, text, tokens, first, parts),
        Shape::AssignIndex => assign_index(alloc, text, tokens, first, parts),
        Shape::Leave => leave(alloc, text, tokens, first, parts),
        Shape::DefineObject => object(alloc, text, tokens, first, parts),
        Shape::DefineFunction => define_function(alloc, text, tokens, first, parts),
        Shape::Define => Ok(Form::Define(
            tree_at(parts, 0),
            tree_if(behind(parts, TokenKind::Exit), 0),
            last_tree(parts),
        )),
        Shape::DefineVar => define_var(alloc, text, tokens, first, parts),
        Shape::AnyPattern => Ok(Form::AnyPattern(guard_of(parts))),
        Shape::FinalPattern => final_pattern(alloc, text, tokens, first, parts),
        Shape::VarPattern => var_pattern(alloc, text, tokens, first, parts),
        Shape::ListPattern => list_pattern(alloc, text, tokens, first, parts),
        Shape::ViaPattern => Ok(Form::ViaPattern(tree_at(parts, 1), tree_at(parts, 3))),
        Shape::NounGuard => noun_guard(alloc, text, tokens, first, parts),
        Shape::ExprGuard => Ok(Form::ExprGuard(tree_at(parts, 0))),
        Shape::To => to(alloc, text, tokens, first, parts),
        Shape::Method => method(alloc, text, tokens, first, parts),
        Shape::Matcher => Ok(Form::Matcher(tree_at(parts, 0), tree_at(parts, 1))),
        Shape::Program => program(alloc, text, tokens, first, parts),
    }
}
