//! The fields of a surface node, taken from the parts of a node that has been read.

ghost use Rattle.std.specs.Prelude.{◌≡◌, ℕ, IfOk, drop, length, slice_get, take, ◌-◌, ◌++◌, ◌∷◌, []};
ghost use Rattle.def_syntax.specs.Kinds.{same};
ghost use Rattle.ev_parser.specs.Surface.{CatchAt, before, behind, catches, caught_at, cut, front, guard_of, is_boundary, is_mark, is_part, last_tree, mark, name_if, rest_of, text_at, tree_at, tree_if, trees, verb_if, word_text};

use crate::draft::Part;
use def_syntax::{Token, TokenKind, Word};
use ev_base::{Memory, NodeId, Seq, Str};
use ev_parse_table::is_same;
use std::alloc::{AllocError, Global};

/// Whether a text may be cut at an index.
#[tactic(auto, using(crate::proofs::Cuts::past_end, crate::proofs::Cuts::at_end, crate::proofs::Cuts::within))]
fn is_boundary(text: &str, index: usize) -> bool
    ensures { result ≡ is_boundary text.now index }
{
    let bytes = text.as_bytes();
    if index > bytes.len() {
        return false;
    }
    if index == bytes.len() {
        return true;
    }
    let byte = bytes[index];
    byte < 128 || byte >= 192
}

/// The text from an index to before another one, or the empty one where the text may not be cut there.
fn cut(text: &str, start: usize, end: usize) -> &str
    ensures { result.now ≡ cut text.now start end }
{
    if start <= end && is_boundary(text, start) && is_boundary(text, end) {
        &text[start..end]
    } else {
        ""
    }
}

/// The text of a token.
pub fn word_text(alloc: Global, text: &str, tokens: &[Token], word: Word) -> Result<Str, Memory>
    ensures { IfOk result (λ t. t ≡ word_text text.now tokens.now word) }
{
    match tokens.get(word.number as usize) {
        None => Ok(Str::new(alloc)),
        Some(token) => Str::copy_of(alloc, cut(text, token.start as usize, token.end as usize)),
    }
}

/// The text of the token that is this part.
pub fn text_at(
    alloc: Global,
    text: &str,
    tokens: &[Token],
    parts: &[Part],
    index: usize,
) -> Result<Str, Memory>
    ensures { IfOk result (λ t. t ≡ text_at text.now tokens.now parts.now index) }
{
    match parts.get(index) {
        Some(Part::Token(word)) => word_text(alloc, text, tokens, *word),
        Some(Part::Tree(_)) => Ok(Str::new(alloc)),
        None => Ok(Str::new(alloc)),
    }
}

/// The tree that is this part, if it is one.
pub fn tree_if(parts: &[Part], index: usize) -> Option<NodeId>
    ensures { result ≡ tree_if parts.now index }
{
    match parts.get(index) {
        Some(Part::Tree(tree)) => Some(NodeId(*tree as u64)),
        Some(Part::Token(_)) => None,
        None => None,
    }
}

/// The tree that is this part.
pub fn tree_at(parts: &[Part], index: usize) -> NodeId
    ensures { result ≡ tree_at parts.now index }
{
    match tree_if(parts, index) {
        Some(tree) => tree,
        None => NodeId(0),
    }
}

/// The tree that is the last part.
pub fn last_tree(parts: &[Part]) -> NodeId
    ensures { result ≡ last_tree parts.now }
{
    if parts.len() == 0 {
        tree_at(parts, 0)
    } else {
        tree_at(parts, parts.len() - 1)
    }
}

/// All parts but the last.
pub fn front(parts: &[Part]) -> &[Part]
    ensures { result.now ≡ front parts.now }
{
    if parts.len() == 0 {
        parts
    } else {
        &parts[..parts.len() - 1]
    }
}

/// All parts but the first.
pub fn tail(parts: &[Part]) -> &[Part]
    ensures { result.now ≡ drop 1 parts.now }
{
    if parts.len() == 0 { parts } else { &parts[1..] }
}

fn add_tree(found: &mut Seq<NodeId>, part: Part) -> Result<(), Memory>
    ensures { IfOk result (λ _. found.new ≡ found.old ++ trees (part ∷ [])) }
{
    match part {
        Part::Tree(tree) => {
            found.push(NodeId(tree as u64))?;
            Ok(())
        }
        Part::Token(_) => Ok(()),
    }
}

/// The trees among some parts.
pub fn trees(alloc: Global, parts: &[Part]) -> Result<Seq<NodeId>, Memory>
    ensures { IfOk result (λ found. found ≡ trees parts.now) }
{
    let mut found = Seq::new(alloc);
    for part in parts {
        add_tree(&mut found, *part)?;
    }
    Ok(found)
}

fn is_mark(part: &Part, kind: TokenKind) -> bool
    ensures { result ≡ is_mark kind part.now }
{
    match part {
        Part::Tree(_) => false,
        Part::Token(word) => is_same(word.kind, kind),
    }
}

/// Whether this part is a token of a kind.
pub fn is_part(parts: &[Part], index: usize, kind: TokenKind) -> bool
    ensures { result ≡ is_part kind (slice_get parts.now index) }
{
    match parts.get(index) {
        None => false,
        Some(part) => is_mark(part, kind),
    }
}

/// How many parts stand before the first token of a kind.
fn mark(parts: &[Part], kind: TokenKind) -> usize
    ensures { result ≡ mark kind parts.now }
{
    for (i, part) in parts.iter().enumerate() {
        if is_mark(part, kind) {
            return i;
        }
    }
    parts.len()
}

/// The parts before the first token of a kind.
pub fn before(parts: &[Part], kind: TokenKind) -> &[Part]
    ensures { result.now ≡ before kind parts.now }
{
    let place = mark(parts, kind);
    if place < parts.len() {
        &parts[..place]
    } else {
        parts
    }
}

/// The parts behind the first token of a kind.
pub fn behind(parts: &[Part], kind: TokenKind) -> &[Part]
    ensures { result.now ≡ behind kind parts.now }
{
    let place = mark(parts, kind);
    if place < parts.len() {
        &parts[place + 1..]
    } else {
        &[]
    }
}

/// The pattern and the block of a catch, if there is one.
pub fn caught_at(parts: &[Part], pattern: usize, block: usize) -> Option<(NodeId, NodeId)>
    ensures { result ≡ caught_at parts.now pattern block }
{
    match (tree_if(parts, pattern), tree_if(parts, block)) {
        (Some(pattern), Some(block)) => Some((pattern, block)),
        _ => None,
    }
}

/// The guard behind the first `:`, if there is one.
pub fn guard_of(parts: &[Part]) -> Option<NodeId>
    ensures { result ≡ guard_of parts.now }
{
    tree_if(behind(parts, TokenKind::Colon), 0)
}

/// The parts behind the patterns of a function or a member.
pub fn rest_of(parts: &[Part]) -> &[Part]
    ensures { result.now ≡ rest_of parts.now }
{
    behind(parts, TokenKind::CloseParen)
}

/// The catches of a `try`, behind its block.
pub fn catches(alloc: Global, parts: &[Part]) -> Result<Seq<(NodeId, NodeId)>, Memory>
    ensures { IfOk result (λ found. found ≡ catches parts.now) }
{
    let mut found = Seq::new(alloc);
    let mut index = 0;
    while let Some(pair) = catch_at(parts, index) {
        found.push(pair)?;
        index += 3;
    }
    Ok(found)
}

/// The catch that begins with this part, if there is one.
fn catch_at(parts: &[Part], index: usize) -> Option<(NodeId, NodeId)>
    ensures { CatchAt (drop index parts.now) result }
{
    if index > parts.len() {
        return None;
    }
    match &parts[index..] {
        [Part::Token(_), Part::Tree(pattern), Part::Tree(block), ..] => Some((
            NodeId(*pattern as u64),
            NodeId(*block as u64),
        )),
        _ => None,
    }
}
