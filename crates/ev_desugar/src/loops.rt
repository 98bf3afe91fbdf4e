//! Loops, exits and waits.

ghost use Rattle.std.specs.Prelude.{◌≡◌, ◌+◌, ◌++◌, suc, length, IfOk};
ghost use Rattle.def_kernel.specs.declared.node.Node.TheVariants.{Try};
ghost use Rattle.ev_desugar.specs.Rows.{awaited, caught, closure, escaped, for_loop, fulfilled, fulfilment, iterated, key_or_any, leavable, repeated, settled, tried, while_loop};

use crate::asking::{ask, ask_named, both_steps, named};
use crate::expressions::{falsehood, null, truth};
use crate::lists::{one, two};
use def_kernel::Node;
use ev_base::{Memory, NodeId, Seq, Str};
use ev_piece::{
    any, call, escape, escape_catch, final_pattern, finally, hide, if_, method, noun, object, seq,
    try_catch,
};
use std::alloc::Global;

/// An ejector of this name round it, where it is called.
#[tactic(auto, unfolding(crate::specs::Rows::leavable))]
pub(crate) fn leavable(
    alloc: Global,
    called: bool,
    name: &str,
    block: Seq<Node>,
) -> Result<Seq<Node>, Memory>
    ensures { IfOk result (λ piece. piece ≡ leavable called name.now block) }
{
    if !called {
        return Ok(block);
    }
    let pattern = final_pattern(alloc, Str::copy_of(alloc, name)?, None)?;
    escape(alloc, pattern, block)
}

/// An object without a name that has one method: `fn p B`.
#[tactic(auto, unfolding(crate::specs::Rows::closure))]
pub fn closure(
    alloc: Global,
    patterns: Seq<Seq<Node>>,
    body: Seq<Node>,
) -> Result<Seq<Node>, Memory>
    ensures { IfOk result (λ piece. piece ≡ closure patterns body) }
{
    let nameless = any(alloc, None)?;
    let run = method(alloc, Str::copy_of(alloc, "run")?, patterns, body)?;
    let members = one(alloc, run)?;
    object(alloc, nameless, Seq::new(alloc), members)
}

/// `while (t) B`, the block being made already.
#[tactic(auto, unfolding(crate::specs::Rows::repeated))]
fn repeated(alloc: Global, test: Seq<Node>, block: Seq<Node>) -> Result<Seq<Node>, Memory>
    ensures { IfOk result (λ piece. piece ≡ repeated test block) }
{
    let yes = truth(alloc)?;
    let steps = both_steps(alloc, block, yes)?;
    let no = falsehood(alloc)?;
    let turn = if_(alloc, test, steps, no)?;
    let turn = closure(alloc, Seq::new(alloc), turn)?;
    let args = one(alloc, turn)?;
    ask_named(alloc, "__loop", "run", args)
}

/// The key of a `for`.
#[tactic(auto, unfolding(crate::specs::Rows::key_or_any))]
fn key_or_any(alloc: Global, key: Option<Seq<Node>>) -> Result<Seq<Node>, Memory>
    ensures { IfOk result (λ piece. piece ≡ key_or_any key) }
{
    match key {
        None => any(alloc, None),
        Some(key) => Ok(key),
    }
}

/// `for k => v in c B`, the block being made already.
#[tactic(auto, unfolding(crate::specs::Rows::iterated))]
fn iterated(
    alloc: Global,
    key: Option<Seq<Node>>,
    value: Seq<Node>,
    whole: Seq<Node>,
    block: Seq<Node>,
) -> Result<Seq<Node>, Memory>
    ensures { IfOk result (λ piece. piece ≡ iterated key value whole block) }
{
    let last = null(alloc)?;
    let steps = both_steps(alloc, block, last)?;
    let key = key_or_any(alloc, key)?;
    let patterns = two(alloc, key, value)?;
    let visit = closure(alloc, patterns, steps)?;
    let args = one(alloc, visit)?;
    ask(alloc, whole, "iterate", args)
}

/// `while (t) B`, whether a `break` or a `continue` of its own is there.
#[tactic(auto, unfolding(crate::specs::Rows::while_loop))]
pub fn while_loop(
    alloc: Global,
    breaks: bool,
    continues: bool,
    test: Seq<Node>,
    block: Seq<Node>,
) -> Result<Seq<Node>, Memory>
    ensures { IfOk result (λ piece. piece ≡ while_loop breaks continues test block) }
{
    let block = leavable(alloc, continues, "__continue", block)?;
    let whole = repeated(alloc, test, block)?;
    leavable(alloc, breaks, "__break", whole)
}

/// `for k => v in c B`
#[tactic(auto, unfolding(crate::specs::Rows::for_loop))]
pub fn for_loop(
    alloc: Global,
    breaks: bool,
    continues: bool,
    key: Option<Seq<Node>>,
    value: Seq<Node>,
    whole: Seq<Node>,
    block: Seq<Node>,
) -> Result<Seq<Node>, Memory>
    ensures { IfOk result (λ piece. piece ≡ for_loop breaks continues key value whole block) }
{
    let block = leavable(alloc, continues, "__continue", block)?;
    let visits = iterated(alloc, key, value, whole, block)?;
    leavable(alloc, breaks, "__break", visits)
}

/// `escape p B catch q C`
#[tactic(auto, unfolding(crate::specs::Rows::escaped))]
pub fn escaped(
    alloc: Global,
    pattern: Seq<Node>,
    block: Seq<Node>,
    caught: Option<(Seq<Node>, Seq<Node>)>,
) -> Result<Seq<Node>, Memory>
    ensures { IfOk result (λ piece. piece ≡ escaped pattern block caught) }
{
    match caught {
        None => escape(alloc, pattern, block),
        Some((other, handler)) => escape_catch(alloc, pattern, block, other, handler),
    }
}

/// Adds the pattern and the handler of a catch behind the nodes of a block, and gives the `try` node of both. So many nodes
/// stand between that one and these.
fn add_catch(
    between: usize,
    nodes: &mut Vec<Node>,
    pattern: Seq<Node>,
    handler: Seq<Node>,
) -> Result<Node, Memory>
    ensures { IfOk result (λ node. (node ≡ Try 1 (suc (between + length nodes.old.items)) (suc (between + length (nodes.old.items ++ pattern)))) × (nodes.new.items ≡ nodes.old.items ++ pattern ++ handler)) }
{
    let mut pattern = pattern.into_vec();
    let mut handler = handler.into_vec();
    let at_pattern = part_start(between, nodes.len())?;
    nodes.append(&mut pattern)?;
    let at_handler = part_start(between, nodes.len())?;
    nodes.append(&mut handler)?;
    Ok(Node::Try {
        body: NodeId(1),
        pattern: at_pattern,
        handler: at_handler,
    })
}

/// Where a part begins behind so many nodes and so many more.
fn part_start(between: usize, count: usize) -> Result<NodeId, Memory>
    ensures { IfOk result (λ start. start ≡ suc (between + count)) }
{
    let start = between.checked_add(count).ok_or(Memory)?;
    let start = start.checked_add(1).ok_or(Memory)?;
    Ok(NodeId(start as u64))
}

/// A block with catches, each further one round the former ones: first the `try` nodes from the outermost, then what
/// stands behind them. It takes time in proportion to the nodes.
#[tactic(auto, using(crate::proofs::Lengths::caught_grows), unfolding(crate::specs::Rows::caught))]
fn caught(
    alloc: Global,
    block: Seq<Node>,
    catches: Seq<(Seq<Node>, Seq<Node>)>,
) -> Result<Seq<Node>, Memory>
    ensures { IfOk result (λ piece. piece ≡ caught block catches) }
{
    let mut heads = Vec::new(alloc);
    let mut nodes = block.into_vec();
    for (pattern, handler) in catches.into_vec() {
        let head = add_catch(heads.len(), &mut nodes, pattern, handler)?;
        heads.push(head)?;
    }
    heads.reverse();
    heads.append(&mut nodes)?;
    Ok(Seq::of(heads))
}

/// `try B catch p C finally F`
#[tactic(auto, using(crate::proofs::Lengths::tried_some), unfolding(crate::specs::Rows::tried))]
pub fn tried(
    alloc: Global,
    block: Seq<Node>,
    catches: Seq<(Seq<Node>, Seq<Node>)>,
    last: Option<Seq<Node>>,
) -> Result<Seq<Node>, Memory>
    ensures { IfOk result (λ piece. piece ≡ tried block catches last) }
{
    match last {
        None => {
            if catches.is_empty() {
                return hide(alloc, block);
            }
            caught(alloc, block, catches)
        }
        Some(last) => {
            let piece = caught(alloc, block, catches)?;
            finally(alloc, piece, last)
        }
    }
}

/// The test of what a `when` awaits.
#[tactic(auto, unfolding(crate::specs::Rows::fulfilment))]
fn fulfilment(alloc: Global) -> Result<Seq<Node>, Memory>
    ensures { IfOk result (λ piece. piece ≡ fulfilment) }
{
    let value = named(alloc, "__w")?;
    let args = one(alloc, value)?;
    ask_named(alloc, "Ref", "fulfillment", args)
}

/// The block of a `when`, behind that test.
#[tactic(auto, unfolding(crate::specs::Rows::fulfilled))]
fn fulfilled(alloc: Global, block: Seq<Node>) -> Result<Seq<Node>, Memory>
    ensures { IfOk result (λ piece. piece ≡ fulfilled block) }
{
    let test = fulfilment(alloc)?;
    both_steps(alloc, test, block)
}

/// The block of a `when` with its catch.
#[tactic(auto, unfolding(crate::specs::Rows::settled))]
fn settled(
    alloc: Global,
    block: Seq<Node>,
    caught: Option<(Seq<Node>, Seq<Node>)>,
) -> Result<Seq<Node>, Memory>
    ensures { IfOk result (λ piece. piece ≡ settled block caught) }
{
    let block = fulfilled(alloc, block)?;
    match caught {
        None => Ok(block),
        Some((pattern, handler)) => try_catch(alloc, block, pattern, handler),
    }
}

/// `when (e) -> B catch p C`
#[tactic(auto, unfolding(crate::specs::Rows::awaited))]
pub fn awaited(
    alloc: Global,
    value: Seq<Node>,
    block: Seq<Node>,
    caught: Option<(Seq<Node>, Seq<Node>)>,
) -> Result<Seq<Node>, Memory>
    ensures { IfOk result (λ piece. piece ≡ awaited value block caught) }
{
    let block = settled(alloc, block, caught)?;
    let pattern = final_pattern(alloc, Str::copy_of(alloc, "__w")?, None)?;
    let patterns = one(alloc, pattern)?;
    let reaction = closure(alloc, patterns, block)?;
    let args = two(alloc, value, reaction)?;
    ask_named(alloc, "Ref", "whenResolved", args)
}
