//! The expansions of parts, copied from those of the nodes before.

ghost use Rattle.std.specs.Prelude.{◌≡◌, IfOk};
ghost use Rattle.ev_expand.specs.Table.{breaks_in, continues_in, pair_at, pair_if, pairs_at, piece_at, piece_if, pieces_at, returns_in, value_at, value_if, value_of, values_at};

use crate::marks::{Marks, inside, marks_at};
use crate::part::Part;
use def_kernel::Node;
use def_syntax::Form;
use ev_base::{Memory, NodeId, Seq};
use ev_desugar::null;
use ev_piece::{copied, hide};
use std::alloc::Global;

/// A part as the block of a form, or as a pattern, a guard or a member.
#[tactic(auto, unfolding(crate::specs::Table::piece_at, crate::specs::Table::part_at, crate::specs::Table::found))]
pub(crate) fn piece_at(alloc: Global, done: &[Part], id: NodeId) -> Result<Seq<Node>, Memory>
    ensures { IfOk result (λ piece. piece ≡ piece_at done.now id) }
{
    match done.get(id.0 as usize) {
        None => null(alloc),
        Some(part) => copied(alloc, &part.piece),
    }
}

/// A part as an expression.
#[tactic(auto, unfolding(crate::specs::Table::value_of))]
fn value_of(alloc: Global, part: &Part) -> Result<Seq<Node>, Memory>
    ensures { IfOk result (λ piece. piece ≡ value_of part.now) }
{
    let piece = copied(alloc, &part.piece)?;
    if !part.is_block {
        return Ok(piece);
    }
    hide(alloc, piece)
}

/// A part as an expression: a block is hidden.
#[tactic(auto, unfolding(crate::specs::Table::value_at, crate::specs::Table::part_at, crate::specs::Table::found, crate::specs::Table::value_of))]
pub(crate) fn value_at(alloc: Global, done: &[Part], id: NodeId) -> Result<Seq<Node>, Memory>
    ensures { IfOk result (λ piece. piece ≡ value_at done.now id) }
{
    match done.get(id.0 as usize) {
        None => null(alloc),
        Some(part) => value_of(alloc, part),
    }
}

/// Parts as blocks, patterns or members.
#[tactic(auto, unfolding(crate::specs::Table::pieces_at))]
pub(crate) fn pieces_at(
    alloc: Global,
    done: &[Part],
    ids: &[NodeId],
) -> Result<Seq<Seq<Node>>, Memory>
    ensures { IfOk result (λ pieces. pieces ≡ pieces_at done.now ids.now) }
{
    let mut pieces = Seq::new(alloc);
    for id in ids {
        let piece = piece_at(alloc, done, *id)?;
        pieces.push(piece)?;
    }
    Ok(pieces)
}

/// Parts as expressions.
#[tactic(auto, unfolding(crate::specs::Table::values_at))]
pub(crate) fn values_at(
    alloc: Global,
    done: &[Part],
    ids: &[NodeId],
) -> Result<Seq<Seq<Node>>, Memory>
    ensures { IfOk result (λ pieces. pieces ≡ values_at done.now ids.now) }
{
    let mut pieces = Seq::new(alloc);
    for id in ids {
        let piece = value_at(alloc, done, *id)?;
        pieces.push(piece)?;
    }
    Ok(pieces)
}

/// A part that may be left out.
#[tactic(auto, unfolding(crate::specs::Table::piece_if))]
pub(crate) fn piece_if(
    alloc: Global,
    done: &[Part],
    id: &Option<NodeId>,
) -> Result<Option<Seq<Node>>, Memory>
    ensures { IfOk result (λ piece. piece ≡ piece_if done.now id.now) }
{
    match id {
        None => Ok(None),
        Some(id) => {
            let piece = piece_at(alloc, done, *id)?;
            Ok(Some(piece))
        }
    }
}

/// An expression that may be left out.
#[tactic(auto, unfolding(crate::specs::Table::value_if))]
pub(crate) fn value_if(
    alloc: Global,
    done: &[Part],
    id: &Option<NodeId>,
) -> Result<Option<Seq<Node>>, Memory>
    ensures { IfOk result (λ piece. piece ≡ value_if done.now id.now) }
{
    match id {
        None => Ok(None),
        Some(id) => {
            let piece = value_at(alloc, done, *id)?;
            Ok(Some(piece))
        }
    }
}

/// The pattern and the block of a catch.
#[tactic(auto, unfolding(crate::specs::Table::pair_at))]
fn pair_at(
    alloc: Global,
    done: &[Part],
    pattern: NodeId,
    block: NodeId,
) -> Result<(Seq<Node>, Seq<Node>), Memory>
    ensures { IfOk result (λ pair. pair ≡ pair_at done.now (pattern, block)) }
{
    let pattern = piece_at(alloc, done, pattern)?;
    let block = piece_at(alloc, done, block)?;
    Ok((pattern, block))
}

/// A catch that may be left out.
#[tactic(auto, unfolding(crate::specs::Table::pair_if))]
pub(crate) fn pair_if(
    alloc: Global,
    done: &[Part],
    pair: &Option<(NodeId, NodeId)>,
) -> Result<Option<(Seq<Node>, Seq<Node>)>, Memory>
    ensures { IfOk result (λ piece. piece ≡ pair_if done.now pair.now) }
{
    match pair {
        None => Ok(None),
        Some((pattern, block)) => {
            let pair = pair_at(alloc, done, *pattern, *block)?;
            Ok(Some(pair))
        }
    }
}

/// Catches.
#[tactic(auto, unfolding(crate::specs::Table::pairs_at))]
pub(crate) fn pairs_at(
    alloc: Global,
    done: &[Part],
    catches: &[(NodeId, NodeId)],
) -> Result<Seq<(Seq<Node>, Seq<Node>)>, Memory>
    ensures { IfOk result (λ pairs. pairs ≡ pairs_at done.now catches.now) }
{
    let mut pairs = Seq::new(alloc);
    for (pattern, block) in catches {
        let pair = pair_at(alloc, done, *pattern, *block)?;
        pairs.push(pair)?;
    }
    Ok(pairs)
}

/// Whether a `return` of its own is in the form.
#[tactic(auto, unfolding(crate::specs::Table::returns_in))]
pub(crate) fn returns_in(alloc: Global, marks: &[Marks], form: &Form) -> Result<bool, Memory>
    ensures { IfOk result (λ found. found ≡ returns_in marks.now form.now) }
{
    let found = inside(alloc, marks, form)?;
    Ok(found.returns.is_some())
}

/// Whether a `break` of its own is in the form.
#[tactic(auto, unfolding(crate::specs::Table::breaks_in))]
pub(crate) fn breaks_in(alloc: Global, marks: &[Marks], form: &Form) -> Result<bool, Memory>
    ensures { IfOk result (λ found. found ≡ breaks_in marks.now form.now) }
{
    let found = inside(alloc, marks, form)?;
    Ok(found.breaks.is_some())
}

/// Whether a `continue` of its own is in the block of a loop.
#[tactic(auto, unfolding(crate::specs::Table::continues_in))]
pub(crate) fn continues_in(marks: &[Marks], block: NodeId) -> bool
    ensures { result ≡ continues_in marks.now block }
{
    marks_at(marks, block).continues.is_some()
}
