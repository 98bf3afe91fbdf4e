//! Loops, exits and waits by what their parts are.

ghost use Rattle.std.specs.Prelude.{◌≡◌, IfOk};
ghost use Rattle.ev_desugar.specs.Rows.{awaited, closure, escaped, for_loop, tried, while_loop};
ghost use Rattle.ev_expand.specs.Table.{breaks_in, continues_in, pair_if, pairs_at, piece_at, piece_if, pieces_at, value_at};

use crate::marks::Marks;
use crate::part::Part;
use crate::reads::{
    breaks_in, continues_in, pair_if, pairs_at, piece_at, piece_if, pieces_at, value_at,
};
use def_kernel::Node;
use def_syntax::Form;
use ev_base::{Memory, NodeId, Seq};
use ev_desugar::{awaited, closure, escaped, for_loop, tried, while_loop};
use std::alloc::Global;

/// `while`
pub(crate) fn while_piece(
    alloc: Global,
    marks: &[Marks],
    done: &[Part],
    form: &Form,
    test: NodeId,
    block: NodeId,
) -> Result<Seq<Node>, Memory>
    ensures { IfOk result (λ piece. piece ≡ while_loop (breaks_in marks.now form.now) (continues_in marks.now block) (value_at done.now test) (piece_at done.now block)) }
{
    let breaks = breaks_in(alloc, marks, form)?;
    let continues = continues_in(marks, block);
    let test = value_at(alloc, done, test)?;
    let block = piece_at(alloc, done, block)?;
    while_loop(alloc, breaks, continues, test, block)
}

/// `for`
pub(crate) fn for_piece(
    alloc: Global,
    marks: &[Marks],
    done: &[Part],
    form: &Form,
    key: &Option<NodeId>,
    value: NodeId,
    whole: NodeId,
    block: NodeId,
) -> Result<Seq<Node>, Memory>
    ensures { IfOk result (λ piece. piece ≡ for_loop (breaks_in marks.now form.now) (continues_in marks.now block) (piece_if done.now key.now) (piece_at done.now value) (value_at done.now whole) (piece_at done.now block)) }
{
    let breaks = breaks_in(alloc, marks, form)?;
    let continues = continues_in(marks, block);
    let key = piece_if(alloc, done, key)?;
    let value = piece_at(alloc, done, value)?;
    let whole = value_at(alloc, done, whole)?;
    let block = piece_at(alloc, done, block)?;
    for_loop(alloc, breaks, continues, key, value, whole, block)
}

/// `escape`
pub(crate) fn escape_piece(
    alloc: Global,
    done: &[Part],
    pattern: NodeId,
    block: NodeId,
    caught: &Option<(NodeId, NodeId)>,
) -> Result<Seq<Node>, Memory>
    ensures { IfOk result (λ piece. piece ≡ escaped (piece_at done.now pattern) (piece_at done.now block) (pair_if done.now caught.now)) }
{
    let pattern = piece_at(alloc, done, pattern)?;
    let block = piece_at(alloc, done, block)?;
    let caught = pair_if(alloc, done, caught)?;
    escaped(alloc, pattern, block, caught)
}

/// `try`
pub(crate) fn try_piece(
    alloc: Global,
    done: &[Part],
    block: NodeId,
    catches: &[(NodeId, NodeId)],
    last: &Option<NodeId>,
) -> Result<Seq<Node>, Memory>
    ensures { IfOk result (λ piece. piece ≡ tried (piece_at done.now block) (pairs_at done.now catches.now) (piece_if done.now last.now)) }
{
    let block = piece_at(alloc, done, block)?;
    let catches = pairs_at(alloc, done, catches)?;
    let last = piece_if(alloc, done, last)?;
    tried(alloc, block, catches, last)
}

/// `when`
pub(crate) fn when_piece(
    alloc: Global,
    done: &[Part],
    value: NodeId,
    block: NodeId,
    caught: &Option<(NodeId, NodeId)>,
) -> Result<Seq<Node>, Memory>
    ensures { IfOk result (λ piece. piece ≡ awaited (value_at done.now value) (piece_at done.now block) (pair_if done.now caught.now)) }
{
    let value = value_at(alloc, done, value)?;
    let block = piece_at(alloc, done, block)?;
    let caught = pair_if(alloc, done, caught)?;
    awaited(alloc, value, block, caught)
}

/// `fn`
pub(crate) fn function_piece(
    alloc: Global,
    done: &[Part],
    patterns: &[NodeId],
    block: NodeId,
) -> Result<Seq<Node>, Memory>
    ensures { IfOk result (λ piece. piece ≡ closure (pieces_at done.now patterns.now) (piece_at done.now block)) }
{
    let patterns = pieces_at(alloc, done, patterns)?;
    let block = piece_at(alloc, done, block)?;
    closure(alloc, patterns, block)
}
