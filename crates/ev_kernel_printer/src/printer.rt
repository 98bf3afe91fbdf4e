//! The form of a tree as text.

ghost use Rattle.std.specs.Prelude.{◌≡◌, ◌++◌, IfOk, OnOk, slice_get, string_bytes};
ghost use Rattle.def_kernel.specs.Forms.{form};
ghost use Rattle.ev_kernel_printer.specs.Pieces.{opening, following, verb_of, written, left};

use crate::parts::{push_head, push_parts};
use crate::pieces::{Piece, Pieces};
use def_kernel::{Kernel, Node};
use ev_base::{Memory, NodeId, Str};
use ev_text::push_verb;
use std::alloc::{AllocError, Global};

/// Writes the head of a node, and leaves its parts, unless no level is left.
fn write_node(
    nodes: &[Node],
    id: NodeId,
    height: usize,
    pieces: &mut Pieces,
    out: &mut String,
) -> Result<(), AllocError>
    ensures text { OnOk result (string_bytes out.new ≡ string_bytes out.old ++ opening nodes.now id height) }
    ensures parts { OnOk result (pieces.new ≡ following nodes.now id height ++ pieces.old) }
{
    if height == 0 {
        return Ok(());
    }
    match nodes.get(id.0 as usize) {
        None => Ok(()),
        Some(node) => {
            push_head(out, node)?;
            push_parts(pieces, id, node, height - 1)
        }
    }
}

/// Writes the verb of a call.
fn write_verb(nodes: &[Node], id: NodeId, out: &mut String) -> Result<(), AllocError>
    ensures { OnOk result (string_bytes out.new ≡ string_bytes out.old ++ verb_of (slice_get nodes.now id)) }
{
    match nodes.get(id.0 as usize) {
        Some(Node::Call { verb, .. }) => push_verb(out, verb.as_str()),
        _ => Ok(()),
    }
}

/// Writes what of a piece can be written at once, and leaves its other pieces.
fn write_piece(
    nodes: &[Node],
    piece: Piece,
    pieces: &mut Pieces,
    out: &mut String,
) -> Result<(), AllocError>
    ensures text { OnOk result (string_bytes out.new ≡ string_bytes out.old ++ written nodes.now piece) }
    ensures pieces { OnOk result (pieces.new ≡ left nodes.now piece ++ pieces.old) }
{
    match piece {
        Piece::Spaced(id, height) => {
            out.push(' ')?;
            write_node(nodes, id, height, pieces, out)
        }
        Piece::Group(id, height) => {
            out.push_str(" (")?;
            write_node(nodes, id, height, pieces, out)
        }
        Piece::Verb(id) => {
            out.push(' ')?;
            write_verb(nodes, id, out)
        }
        Piece::Exit => out.push_str(" exit"),
        Piece::Open => out.push_str(" ("),
        Piece::Close => out.push(')'),
    }
}

/// The form of a tree: that of its node 0. Each part that a node names is written where it is named, to as many levels as
/// the tree has nodes, which no tree passes.
pub fn print(alloc: Global, tree: &Kernel) -> Result<Str, Memory>
    ensures { IfOk result (λ text. text ≡ form tree.now 0) }
{
    let nodes = tree.nodes();
    let mut out = String::new(alloc);
    let mut pieces = Pieces::new(alloc);
    write_node(nodes, NodeId(0), nodes.len(), &mut pieces, &mut out)?;
    while let Some(piece) = pieces.pop() {
        write_piece(nodes, piece, &mut pieces, &mut out)?;
    }
    Ok(Str::of(out))
}
