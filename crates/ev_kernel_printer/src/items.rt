//! The form of a tree in items, as auditors see it.

ghost use Rattle.std.specs.Prelude.{◌≡◌, [], ◌∷◌, ◌++◌, IfOk, OnOk, Some, codes, option_map, slice_get};
ghost use Rattle.def_machine.specs.Form.{items_of};
ghost use Rattle.ev_kernel_printer.specs.Items.{head_items, items_in, literal_item, opening_items, verb_of, word_items, written_items};
ghost use Rattle.ev_kernel_printer.specs.Pieces.{following, left};
ghost use Rattle.ev_kernel_printer.specs.declared.items.Item.TheVariants as item;

use crate::parts::push_parts;
use crate::pieces::{Piece, Pieces};
use def_kernel::{Kernel, Literal, Node};
use ev_base::{Memory, NodeId, Seq, Text, Word};
use std::alloc::Global;

/// An item of a form: where a list begins or ends, a word, or a literal.
pub enum Item {
    Begin,
    End,
    /// The word of a form, a name or a verb.
    Word(Word),
    Int(i128),
    Char(char),
    Text(Text),
}

impl Drop for Item {
    fn drop(self) {
        match self {
            Self::Begin => {}
            Self::End => {}
            Self::Word(_word) => {}
            Self::Int(_) => {}
            Self::Char(_) => {}
            Self::Text(_text) => {}
        }
    }
}

/// Appends a word.
fn push_word(alloc: Global, out: &mut Seq<Item>, word: &str) -> Result<(), Memory>
    ensures { OnOk result (out.new ≡ out.old ++ item.Word word.now ∷ []) }
{
    let word = Word::copy_of(alloc, word)?;
    out.push(Item::Word(word))
}

/// Appends the beginning of a form and its word.
fn push_begin(alloc: Global, out: &mut Seq<Item>, word: &str) -> Result<(), Memory>
    ensures { OnOk result (out.new ≡ out.old ++ item.Begin ∷ item.Word word.now ∷ []) }
{
    out.push(Item::Begin)?;
    push_word(alloc, out, word)
}

/// Appends the beginning of a form, its word, and a name or verb.
fn push_named(alloc: Global, out: &mut Seq<Item>, word: &str, name: &Word) -> Result<(), Memory>
    ensures { OnOk result (out.new ≡ out.old ++ item.Begin ∷ item.Word word.now ∷ item.Word name.now ∷ []) }
{
    push_begin(alloc, out, word)?;
    let name = name.share()?;
    out.push(Item::Word(name))
}

/// A literal as an item.
fn literal_item(literal: &Literal) -> Result<Item, Memory>
    ensures { IfOk result (λ found. found ≡ literal_item literal.now) }
{
    match literal {
        Literal::Int(value) => Ok(Item::Int(*value)),
        Literal::Char(c) => Ok(Item::Char(*c)),
        Literal::Text(text) => Ok(Item::Text(text.share()?)),
    }
}

/// Appends the beginning of the form of a literal.
fn push_literal(alloc: Global, out: &mut Seq<Item>, literal: &Literal) -> Result<(), Memory>
    ensures { OnOk result (out.new ≡ out.old ++ item.Begin ∷ item.Word (codes "lit") ∷ literal_item literal.now ∷ []) }
{
    push_begin(alloc, out, "lit")?;
    let literal = literal_item(literal)?;
    out.push(literal)
}

/// Appends what stands of a node before its first part.
fn push_head_items(alloc: Global, out: &mut Seq<Item>, node: &Node) -> Result<(), Memory>
    ensures { OnOk result (out.new ≡ out.old ++ head_items node.now) }
{
    match node {
        Node::Lit(literal) => push_literal(alloc, out, literal),
        Node::Method { verb, .. } => push_named(alloc, out, "method", verb),
        Node::Noun(name) => push_named(alloc, out, "noun", name),
        Node::Set(name, _) => push_named(alloc, out, "set", name),
        Node::Final(name, _) => push_named(alloc, out, "final", name),
        Node::Var(name, _) => push_named(alloc, out, "var", name),
        Node::Def { .. } => push_begin(alloc, out, "def"),
        Node::Call { .. } => push_begin(alloc, out, "call"),
        Node::Sequence(_) => push_begin(alloc, out, "seq"),
        Node::If(..) => push_begin(alloc, out, "if"),
        Node::Escape { .. } => push_begin(alloc, out, "escape"),
        Node::Try { .. } => push_begin(alloc, out, "try"),
        Node::Finally(..) => push_begin(alloc, out, "finally"),
        Node::Hide(_) => push_begin(alloc, out, "hide"),
        Node::MatchBind(..) => push_begin(alloc, out, "match"),
        Node::Object { .. } => push_begin(alloc, out, "object"),
        Node::Matcher { .. } => push_begin(alloc, out, "matcher"),
        Node::Any(_) => push_begin(alloc, out, "any"),
        Node::ListPattern(_) => push_begin(alloc, out, "list"),
        Node::Via(..) => push_begin(alloc, out, "via"),
    }
}

/// The node of a number.
fn node_at(nodes: &[Node], id: NodeId) -> Option<&Node>
    ensures { option_map (λ node. node.now) result ≡ slice_get nodes.now id }
{
    nodes.get(id.0 as usize)
}

/// Appends the head of a node, and leaves its parts, unless no level is left.
#[tactic(auto, using(crate::proofs::ItemLemmas::told_none, crate::proofs::ItemLemmas::left_none, crate::proofs::ItemLemmas::told_some, crate::proofs::ItemLemmas::left_some, crate::proofs::ItemLemmas::nothing_more))]
fn push_node(
    alloc: Global,
    nodes: &[Node],
    id: NodeId,
    height: usize,
    pieces: &mut Pieces,
    out: &mut Seq<Item>,
) -> Result<(), Memory>
    ensures items { OnOk result (out.new ≡ out.old ++ opening_items nodes.now id height) }
    ensures parts { OnOk result (pieces.new ≡ following nodes.now id height ++ pieces.old) }
{
    if height == 0 {
        return Ok(());
    }
    match node_at(nodes, id) {
        None => Ok(()),
        Some(node) => {
            push_head_items(alloc, out, node)?;
            push_parts(pieces, id, node, height - 1)?;
            Ok(())
        }
    }
}

/// The verb of a call.
fn verb_of(node: &Node) -> Option<&Word>
    ensures { option_map (λ verb. verb.now) result ≡ verb_of (Some node.now) }
{
    match node {
        Node::Call { verb, .. } => Some(verb),
        _ => None,
    }
}

/// Appends a word or none.
#[tactic(auto, using(crate::proofs::ItemLemmas::nothing_more))]
fn push_perhaps(word: Option<&Word>, out: &mut Seq<Item>) -> Result<(), Memory>
    ensures { OnOk result (out.new ≡ out.old ++ word_items (option_map (λ w. w.now) word.entry)) }
{
    match word {
        None => Ok(()),
        Some(word) => {
            let word = word.share()?;
            out.push(Item::Word(word))
        }
    }
}

/// The verb of the call of a number, where it is one.
fn verb_at(nodes: &[Node], id: NodeId) -> Option<&Word>
    ensures { option_map (λ verb. verb.now) result ≡ verb_of (slice_get nodes.now id) }
{
    match node_at(nodes, id) {
        None => None,
        Some(node) => verb_of(node),
    }
}

/// Appends what of a piece can be told at once, and leaves its other pieces.
fn push_piece(
    alloc: Global,
    nodes: &[Node],
    piece: Piece,
    pieces: &mut Pieces,
    out: &mut Seq<Item>,
) -> Result<(), Memory>
    ensures items { OnOk result (out.new ≡ out.old ++ written_items nodes.now piece) }
    ensures pieces { OnOk result (pieces.new ≡ left nodes.now piece ++ pieces.old) }
{
    match piece {
        Piece::Spaced(id, height) => push_node(alloc, nodes, id, height, pieces, out),
        Piece::Group(id, height) => {
            out.push(Item::Begin)?;
            push_node(alloc, nodes, id, height, pieces, out)
        }
        Piece::Verb(id) => push_perhaps(verb_at(nodes, id), out),
        Piece::Exit => push_word(alloc, out, "exit"),
        Piece::Open => out.push(Item::Begin),
        Piece::Close => out.push(Item::End),
    }
}

/// The form of a node in items. Each part that a node names is told where it is named, to as many levels as the tree has
/// nodes, which no tree passes.
pub fn as_items(alloc: Global, tree: &Kernel, node: NodeId) -> Result<Seq<Item>, Memory>
    ensures { IfOk result (λ items. items_in items ≡ items_of tree.now node) }
{
    let nodes = tree.nodes();
    let mut out = Seq::new(alloc);
    let mut pieces = Pieces::new(alloc);
    push_node(alloc, nodes, node, nodes.len(), &mut pieces, &mut out)?;
    while let Some(piece) = pieces.pop() {
        push_piece(alloc, nodes, piece, &mut pieces, &mut out)?;
    }
    Ok(out)
}
