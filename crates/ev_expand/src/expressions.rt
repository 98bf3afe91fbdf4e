//! Expressions by what their parts are.

ghost use Rattle.std.specs.Prelude.{◌≡◌, IfOk, option_map};
ghost use Rattle.ev_piece.specs.Pieces.{call, match_bind};
ghost use Rattle.ev_desugar.specs.Words.{verb_behind};
ghost use Rattle.ev_desugar.specs.Rows.{assign, binary, body, conditional, leave, made_list, prefix, put, send};
ghost use Rattle.ev_expand.specs.Table.{piece_at, piece_if, value_at, value_if, values_at};

use crate::part::Part;
use crate::reads::{piece_at, piece_if, value_at, value_if, values_at};
use def_kernel::Node;
use ev_base::{Memory, NodeId, Seq, Str};
use ev_desugar::{
    assign, binary, body, conditional, leave, made_list, prefix, put, send, verb_behind,
};
use ev_piece::{call, match_bind};
use std::alloc::Global;

/// The verb of a send that is spelled so.
fn verb_if(alloc: Global, verb: &Option<Str>) -> Result<Option<Str>, Memory>
    ensures { IfOk result (λ found. found ≡ option_map verb_behind verb.now) }
{
    match verb {
        None => Ok(None),
        Some(verb) => {
            let found = verb_behind(alloc, verb.as_str())?;
            Ok(Some(found))
        }
    }
}

/// A list.
pub(crate) fn list_piece(
    alloc: Global,
    done: &[Part],
    members: &[NodeId],
) -> Result<Seq<Node>, Memory>
    ensures { IfOk result (λ piece. piece ≡ made_list (values_at done.now members.now)) }
{
    let members = values_at(alloc, done, members)?;
    made_list(alloc, members)
}

/// A block or the program.
pub(crate) fn block_piece(
    alloc: Global,
    done: &[Part],
    items: &[NodeId],
) -> Result<Seq<Node>, Memory>
    ensures { IfOk result (λ piece. piece ≡ body (values_at done.now items.now)) }
{
    let items = values_at(alloc, done, items)?;
    body(alloc, items)
}

/// A call of this verb.
pub(crate) fn call_piece(
    alloc: Global,
    done: &[Part],
    receiver: NodeId,
    verb: &str,
    args: &[NodeId],
) -> Result<Seq<Node>, Memory>
    ensures { IfOk result (λ piece. piece ≡ call (value_at done.now receiver) verb.now (values_at done.now args.now)) }
{
    let receiver = value_at(alloc, done, receiver)?;
    let args = values_at(alloc, done, args)?;
    let verb = Str::copy_of(alloc, verb)?;
    call(alloc, receiver, verb, args)
}

/// A call of the verb that is spelled so.
pub(crate) fn verb_call_piece(
    alloc: Global,
    done: &[Part],
    receiver: NodeId,
    verb: &str,
    args: &[NodeId],
) -> Result<Seq<Node>, Memory>
    ensures { IfOk result (λ piece. piece ≡ call (value_at done.now receiver) (verb_behind verb.now) (values_at done.now args.now)) }
{
    let verb = verb_behind(alloc, verb)?;
    call_piece(alloc, done, receiver, verb.as_str(), args)
}

/// A send.
pub(crate) fn send_piece(
    alloc: Global,
    done: &[Part],
    target: NodeId,
    verb: &Option<Str>,
    args: &[NodeId],
) -> Result<Seq<Node>, Memory>
    ensures { IfOk result (λ piece. piece ≡ send (value_at done.now target) (option_map verb_behind verb.now) (values_at done.now args.now)) }
{
    let target = value_at(alloc, done, target)?;
    let verb = verb_if(alloc, verb)?;
    let args = values_at(alloc, done, args)?;
    send(alloc, target, verb, args)
}

/// A prefix.
pub(crate) fn prefix_piece(
    alloc: Global,
    done: &[Part],
    operator: &str,
    value: NodeId,
) -> Result<Seq<Node>, Memory>
    ensures { IfOk result (λ piece. piece ≡ prefix operator.now (value_at done.now value)) }
{
    let value = value_at(alloc, done, value)?;
    prefix(alloc, operator, value)
}

/// An operator between two expressions.
pub(crate) fn binary_piece(
    alloc: Global,
    done: &[Part],
    left: NodeId,
    operator: &str,
    right: NodeId,
) -> Result<Seq<Node>, Memory>
    ensures { IfOk result (λ piece. piece ≡ binary (value_at done.now left) operator.now (value_at done.now right)) }
{
    let left = value_at(alloc, done, left)?;
    let right = value_at(alloc, done, right)?;
    binary(alloc, left, operator, right)
}

/// `=~`
pub(crate) fn match_piece(
    alloc: Global,
    done: &[Part],
    value: NodeId,
    pattern: NodeId,
) -> Result<Seq<Node>, Memory>
    ensures { IfOk result (λ piece. piece ≡ match_bind (value_at done.now value) (piece_at done.now pattern)) }
{
    let value = value_at(alloc, done, value)?;
    let pattern = piece_at(alloc, done, pattern)?;
    match_bind(alloc, value, pattern)
}

/// An assignment to a noun.
pub(crate) fn assign_piece(
    alloc: Global,
    done: &[Part],
    noun: &str,
    operator: &str,
    value: NodeId,
) -> Result<Seq<Node>, Memory>
    ensures { IfOk result (λ piece. piece ≡ assign noun.now operator.now (value_at done.now value)) }
{
    let value = value_at(alloc, done, value)?;
    assign(alloc, noun, operator, value)
}

/// An assignment to an index form.
pub(crate) fn put_piece(
    alloc: Global,
    done: &[Part],
    object: NodeId,
    args: &[NodeId],
    value: NodeId,
) -> Result<Seq<Node>, Memory>
    ensures { IfOk result (λ piece. piece ≡ put (value_at done.now object) (values_at done.now args.now) (value_at done.now value)) }
{
    let object = value_at(alloc, done, object)?;
    let args = values_at(alloc, done, args)?;
    let value = value_at(alloc, done, value)?;
    put(alloc, object, args, value)
}

/// `if`
pub(crate) fn if_piece(
    alloc: Global,
    done: &[Part],
    test: NodeId,
    yes: NodeId,
    no: &Option<NodeId>,
) -> Result<Seq<Node>, Memory>
    ensures { IfOk result (λ piece. piece ≡ conditional (value_at done.now test) (piece_at done.now yes) (piece_if done.now no.now)) }
{
    let test = value_at(alloc, done, test)?;
    let yes = piece_at(alloc, done, yes)?;
    let no = piece_if(alloc, done, no)?;
    conditional(alloc, test, yes, no)
}

/// `return`, `break` or `continue`.
pub(crate) fn leave_piece(
    alloc: Global,
    done: &[Part],
    word: &str,
    value: &Option<NodeId>,
) -> Result<Seq<Node>, Memory>
    ensures { IfOk result (λ piece. piece ≡ leave word.now (value_if done.now value.now)) }
{
    let value = value_if(alloc, done, value)?;
    leave(alloc, word, value)
}
