//! The head and the parts of a node.

ghost use Rattle.std.specs.Prelude.{◌≡◌, ◌∷◌, ◌++◌, OnOk, string_bytes};
ghost use Rattle.def_kernel.specs.Forms.{literal_form};
ghost use Rattle.ev_kernel_printer.specs.Pieces.{head, parts, inner_parts, perhaps, exit_parts, caught_parts, items, group};

use crate::pieces::{Piece, Pieces, push_group, push_items};
use def_kernel::{Literal, Node};
use ev_base::NodeId;
use ev_text::{push_quoted, push_quoted_character, push_verb};
use std::alloc::AllocError;
use std::fmt::Write;

/// Appends a literal.
fn push_literal(out: &mut String, literal: &Literal) -> Result<(), AllocError>
    ensures { OnOk result (string_bytes out.new ≡ string_bytes out.old ++ literal_form literal.now) }
{
    match literal {
        Literal::Int(value) => {
            let number = *value;
            write!(out, "{number}")
        }
        Literal::Char(c) => push_quoted_character(out, *c),
        Literal::Text(text) => push_quoted(out, text.as_str()),
    }
}

/// Appends a word and a name behind it.
fn push_named(out: &mut String, word: &str, name: &str) -> Result<(), AllocError>
    ensures { OnOk result (string_bytes out.new ≡ string_bytes out.old ++ (word.now ++ name.now)) }
{
    out.push_str(word)?;
    out.push_str(name)
}

/// Appends what stands of a node before its first part.
pub(crate) fn push_head(out: &mut String, node: &Node) -> Result<(), AllocError>
    ensures { OnOk result (string_bytes out.new ≡ string_bytes out.old ++ head node.now) }
{
    match node {
        Node::Lit(literal) => {
            out.push_str("(lit ")?;
            push_literal(out, literal)
        }
        Node::Method { verb, .. } => {
            out.push_str("(method ")?;
            push_verb(out, verb.as_str())
        }
        Node::Noun(name) => push_named(out, "(noun ", name.as_str()),
        Node::Set(name, _) => push_named(out, "(set ", name.as_str()),
        Node::Final(name, _) => push_named(out, "(final ", name.as_str()),
        Node::Var(name, _) => push_named(out, "(var ", name.as_str()),
        Node::Def { .. } => out.push_str("(def"),
        Node::Call { .. } => out.push_str("(call"),
        Node::Sequence(_) => out.push_str("(seq"),
        Node::If(..) => out.push_str("(if"),
        Node::Escape { .. } => out.push_str("(escape"),
        Node::Try { .. } => out.push_str("(try"),
        Node::Finally(..) => out.push_str("(finally"),
        Node::Hide(_) => out.push_str("(hide"),
        Node::MatchBind(..) => out.push_str("(match"),
        Node::Object { .. } => out.push_str("(object"),
        Node::Matcher { .. } => out.push_str("(matcher"),
        Node::Any(_) => out.push_str("(any"),
        Node::ListPattern(_) => out.push_str("(list"),
        Node::Via(..) => out.push_str("(via"),
    }
}

/// A part behind a space is to be written before the others.
fn push_one(pieces: &mut Pieces, id: NodeId, height: usize) -> Result<(), AllocError>
    ensures { OnOk result (pieces.new ≡ Piece.Spaced id height ∷ pieces.old) }
{
    pieces.push(Piece::Spaced(id, height))
}

/// Two parts.
fn push_two(
    pieces: &mut Pieces,
    first: NodeId,
    second: NodeId,
    height: usize,
) -> Result<(), AllocError>
    ensures { OnOk result (pieces.new ≡ Piece.Spaced first height ∷ Piece.Spaced second height ∷ pieces.old) }
{
    push_one(pieces, second, height)?;
    push_one(pieces, first, height)
}

/// Three parts.
fn push_three(
    pieces: &mut Pieces,
    first: NodeId,
    second: NodeId,
    third: NodeId,
    height: usize,
) -> Result<(), AllocError>
    ensures { OnOk result (pieces.new ≡ Piece.Spaced first height ∷ Piece.Spaced second height ∷ Piece.Spaced third height ∷ pieces.old) }
{
    push_one(pieces, third, height)?;
    push_two(pieces, first, second, height)
}

/// A part or none.
fn push_perhaps(pieces: &mut Pieces, id: Option<NodeId>, height: usize) -> Result<(), AllocError>
    ensures { OnOk result (pieces.new ≡ perhaps height id ++ pieces.old) }
{
    match id {
        None => Ok(()),
        Some(id) => push_one(pieces, id, height),
    }
}

/// An ejector with its word, or none.
fn push_exit(pieces: &mut Pieces, exit: Option<NodeId>, height: usize) -> Result<(), AllocError>
    ensures { OnOk result (pieces.new ≡ exit_parts height exit ++ pieces.old) }
{
    match exit {
        None => Ok(()),
        Some(id) => {
            push_one(pieces, id, height)?;
            pieces.push(Piece::Exit)
        }
    }
}

/// The catch of an escape, or none.
fn push_caught(
    pieces: &mut Pieces,
    caught: Option<(NodeId, NodeId)>,
    height: usize,
) -> Result<(), AllocError>
    ensures { OnOk result (pieces.new ≡ caught_parts height caught ++ pieces.old) }
{
    match caught {
        None => Ok(()),
        Some((pattern, body)) => push_two(pieces, pattern, body, height),
    }
}

/// The parts of a definition.
fn push_definition(
    pieces: &mut Pieces,
    pattern: NodeId,
    exit: Option<NodeId>,
    value: NodeId,
    height: usize,
) -> Result<(), AllocError>
    ensures { OnOk result (pieces.new ≡ Piece.Spaced pattern height ∷ (exit_parts height exit ++ Piece.Spaced value height ∷ pieces.old)) }
{
    push_one(pieces, value, height)?;
    push_exit(pieces, exit, height)?;
    push_one(pieces, pattern, height)
}

/// The parts of an escape.
fn push_escape(
    pieces: &mut Pieces,
    pattern: NodeId,
    body: NodeId,
    caught: Option<(NodeId, NodeId)>,
    height: usize,
) -> Result<(), AllocError>
    ensures { OnOk result (pieces.new ≡ Piece.Spaced pattern height ∷ Piece.Spaced body height ∷ (caught_parts height caught ++ pieces.old)) }
{
    push_caught(pieces, caught, height)?;
    push_two(pieces, pattern, body, height)
}

/// The parts of the call of this number.
fn push_call(
    pieces: &mut Pieces,
    id: NodeId,
    receiver: NodeId,
    args: &[NodeId],
    height: usize,
) -> Result<(), AllocError>
    ensures { OnOk result (pieces.new ≡ Piece.Spaced receiver height ∷ Piece.Verb id ∷ (items height args.now ++ pieces.old)) }
{
    push_items(pieces, args, height)?;
    pieces.push(Piece::Verb(id))?;
    push_one(pieces, receiver, height)
}

/// The parts of an object.
fn push_object(
    pieces: &mut Pieces,
    pattern: NodeId,
    auditors: &[NodeId],
    members: &[NodeId],
    height: usize,
) -> Result<(), AllocError>
    ensures { OnOk result (pieces.new ≡ Piece.Spaced pattern height ∷ (group height auditors.now ++ (items height members.now ++ pieces.old))) }
{
    push_items(pieces, members, height)?;
    push_group(pieces, auditors, height)?;
    push_one(pieces, pattern, height)
}

/// The parts of a method.
fn push_method(
    pieces: &mut Pieces,
    patterns: &[NodeId],
    body: NodeId,
    height: usize,
) -> Result<(), AllocError>
    ensures { OnOk result (pieces.new ≡ group height patterns.now ++ Piece.Spaced body height ∷ pieces.old) }
{
    push_one(pieces, body, height)?;
    push_group(pieces, patterns, height)
}

/// The parts of a node of several lists or choices.
fn push_inner(pieces: &mut Pieces, id: NodeId, node: &Node, height: usize) -> Result<(), AllocError>
    ensures { OnOk result (pieces.new ≡ inner_parts id height node.now ++ pieces.old) }
{
    match node {
        Node::Lit(_) | Node::Noun(_) => Ok(()),
        Node::Set(_, part) | Node::Hide(part) => push_one(pieces, *part, height),
        Node::Finally(first, second) | Node::MatchBind(first, second) | Node::Via(first, second) =>
            { push_two(pieces, *first, *second, height) }
        Node::Matcher { pattern, body } => push_two(pieces, *pattern, *body, height),
        Node::If(test, yes, no) => push_three(pieces, *test, *yes, *no, height),
        Node::Try {
            body,
            pattern,
            handler,
        } => push_three(pieces, *body, *pattern, *handler, height),
        Node::Sequence(ids) | Node::ListPattern(ids) => push_items(pieces, ids.as_slice(), height),
        Node::Final(_, guard) | Node::Var(_, guard) | Node::Any(guard) => {
            push_perhaps(pieces, *guard, height)
        }
        Node::Def {
            pattern,
            exit,
            value,
        } => push_definition(pieces, *pattern, *exit, *value, height),
        Node::Escape {
            pattern,
            body,
            caught,
        } => push_escape(pieces, *pattern, *body, *caught, height),
        Node::Call { receiver, args, .. } => {
            push_call(pieces, id, *receiver, args.as_slice(), height)
        }
        Node::Object {
            pattern,
            auditors,
            members,
        } => push_object(
            pieces,
            *pattern,
            auditors.as_slice(),
            members.as_slice(),
            height,
        ),
        Node::Method { patterns, body, .. } => {
            push_method(pieces, patterns.as_slice(), *body, height)
        }
    }
}

/// The pieces of a node behind its head are to be written before the others.
pub(crate) fn push_parts(
    pieces: &mut Pieces,
    id: NodeId,
    node: &Node,
    height: usize,
) -> Result<(), AllocError>
    ensures { OnOk result (pieces.new ≡ parts id height node.now ++ pieces.old) }
{
    pieces.push(Piece::Close)?;
    push_inner(pieces, id, node, height)
}
