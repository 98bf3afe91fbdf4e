//! Objects, definitions and patterns by what their parts are.

ghost use Rattle.std.specs.Prelude.{◌≡◌, IfOk};
ghost use Rattle.ev_piece.specs.Pieces.{any, def, final_pattern, list, matcher, variable, via};
ghost use Rattle.ev_desugar.specs.Words.{verb_behind};
ghost use Rattle.ev_desugar.specs.Rows.{defined_function, defined_object, defined_var, noun_guard, plain_method, to_method};
ghost use Rattle.ev_expand.specs.Table.{piece_at, piece_if, pieces_at, returns_in, value_at, value_if, values_at};

use crate::marks::Marks;
use crate::part::Part;
use crate::reads::{piece_at, piece_if, pieces_at, returns_in, value_at, value_if, values_at};
use def_kernel::Node;
use def_syntax::Form;
use ev_base::{Memory, NodeId, Seq, Str};
use ev_desugar::{
    defined_function, defined_object, defined_var, noun_guard, plain_method, to_method, verb_behind,
};
use ev_piece::{any, def, final_pattern, list, matcher, variable, via};
use std::alloc::Global;

/// A copy of a name that may be none.
fn name_if(alloc: Global, name: &Option<Str>) -> Result<Option<Str>, Memory>
    ensures { IfOk result (λ copy. copy ≡ name.now) }
{
    match name {
        None => Ok(None),
        Some(name) => {
            let copy = Str::copy_of(alloc, name.as_str())?;
            Ok(Some(copy))
        }
    }
}

/// An object.
pub(crate) fn object_piece(
    alloc: Global,
    done: &[Part],
    name: &Option<Str>,
    auditors: &[NodeId],
    members: &[NodeId],
) -> Result<Seq<Node>, Memory>
    ensures { IfOk result (λ piece. piece ≡ defined_object name.now (values_at done.now auditors.now) (pieces_at done.now members.now)) }
{
    let name = name_if(alloc, name)?;
    let auditors = values_at(alloc, done, auditors)?;
    let members = pieces_at(alloc, done, members)?;
    defined_object(alloc, name, auditors, members)
}

/// `def f()`
pub(crate) fn def_function_piece(
    alloc: Global,
    marks: &[Marks],
    done: &[Part],
    form: &Form,
    name: &str,
    patterns: &[NodeId],
    guard: &Option<NodeId>,
    auditors: &[NodeId],
    block: NodeId,
) -> Result<Seq<Node>, Memory>
    ensures { IfOk result (λ piece. piece ≡ defined_function (returns_in marks.now form.now) name.now (pieces_at done.now patterns.now) (piece_if done.now guard.now) (values_at done.now auditors.now) (piece_at done.now block)) }
{
    let returns = returns_in(alloc, marks, form)?;
    let name = Str::copy_of(alloc, name)?;
    let patterns = pieces_at(alloc, done, patterns)?;
    let guard = piece_if(alloc, done, guard)?;
    let auditors = values_at(alloc, done, auditors)?;
    let block = piece_at(alloc, done, block)?;
    defined_function(alloc, returns, name, patterns, guard, auditors, block)
}

/// `def p := e`
pub(crate) fn define_piece(
    alloc: Global,
    done: &[Part],
    pattern: NodeId,
    exit: &Option<NodeId>,
    value: NodeId,
) -> Result<Seq<Node>, Memory>
    ensures { IfOk result (λ piece. piece ≡ def (piece_at done.now pattern) (value_if done.now exit.now) (value_at done.now value)) }
{
    let pattern = piece_at(alloc, done, pattern)?;
    let exit = value_if(alloc, done, exit)?;
    let value = value_at(alloc, done, value)?;
    def(alloc, pattern, exit, value)
}

/// `var x := e`
pub(crate) fn var_piece(
    alloc: Global,
    done: &[Part],
    name: &str,
    guard: &Option<NodeId>,
    exit: &Option<NodeId>,
    value: NodeId,
) -> Result<Seq<Node>, Memory>
    ensures { IfOk result (λ piece. piece ≡ defined_var name.now (piece_if done.now guard.now) (value_if done.now exit.now) (value_at done.now value)) }
{
    let name = Str::copy_of(alloc, name)?;
    let guard = piece_if(alloc, done, guard)?;
    let exit = value_if(alloc, done, exit)?;
    let value = value_at(alloc, done, value)?;
    defined_var(alloc, name, guard, exit, value)
}

/// The pattern `_`.
pub(crate) fn any_piece(
    alloc: Global,
    done: &[Part],
    guard: &Option<NodeId>,
) -> Result<Seq<Node>, Memory>
    ensures { IfOk result (λ piece. piece ≡ any (piece_if done.now guard.now)) }
{
    let guard = piece_if(alloc, done, guard)?;
    any(alloc, guard)
}

/// A noun as a pattern.
pub(crate) fn final_piece(
    alloc: Global,
    done: &[Part],
    name: &str,
    guard: &Option<NodeId>,
) -> Result<Seq<Node>, Memory>
    ensures { IfOk result (λ piece. piece ≡ final_pattern name.now (piece_if done.now guard.now)) }
{
    let name = Str::copy_of(alloc, name)?;
    let guard = piece_if(alloc, done, guard)?;
    final_pattern(alloc, name, guard)
}

/// A `var` pattern.
pub(crate) fn variable_piece(
    alloc: Global,
    done: &[Part],
    name: &str,
    guard: &Option<NodeId>,
) -> Result<Seq<Node>, Memory>
    ensures { IfOk result (λ piece. piece ≡ variable name.now (piece_if done.now guard.now)) }
{
    let name = Str::copy_of(alloc, name)?;
    let guard = piece_if(alloc, done, guard)?;
    variable(alloc, name, guard)
}

/// A list pattern.
pub(crate) fn list_pattern_piece(
    alloc: Global,
    done: &[Part],
    patterns: &[NodeId],
) -> Result<Seq<Node>, Memory>
    ensures { IfOk result (λ piece. piece ≡ list (pieces_at done.now patterns.now)) }
{
    let patterns = pieces_at(alloc, done, patterns)?;
    list(alloc, patterns)
}

/// A `via` pattern.
pub(crate) fn via_piece(
    alloc: Global,
    done: &[Part],
    value: NodeId,
    pattern: NodeId,
) -> Result<Seq<Node>, Memory>
    ensures { IfOk result (λ piece. piece ≡ via (value_at done.now value) (piece_at done.now pattern)) }
{
    let value = value_at(alloc, done, value)?;
    let pattern = piece_at(alloc, done, pattern)?;
    via(alloc, value, pattern)
}

/// A noun as a guard.
pub(crate) fn guard_piece(
    alloc: Global,
    done: &[Part],
    name: &str,
    args: &[NodeId],
) -> Result<Seq<Node>, Memory>
    ensures { IfOk result (λ piece. piece ≡ noun_guard name.now (values_at done.now args.now)) }
{
    let name = Str::copy_of(alloc, name)?;
    let args = values_at(alloc, done, args)?;
    noun_guard(alloc, name, args)
}

/// `to`
pub(crate) fn to_piece(
    alloc: Global,
    marks: &[Marks],
    done: &[Part],
    form: &Form,
    verb: &str,
    patterns: &[NodeId],
    guard: &Option<NodeId>,
    block: NodeId,
) -> Result<Seq<Node>, Memory>
    ensures { IfOk result (λ piece. piece ≡ to_method (returns_in marks.now form.now) (verb_behind verb.now) (pieces_at done.now patterns.now) (piece_if done.now guard.now) (piece_at done.now block)) }
{
    let returns = returns_in(alloc, marks, form)?;
    let verb = verb_behind(alloc, verb)?;
    let patterns = pieces_at(alloc, done, patterns)?;
    let guard = piece_if(alloc, done, guard)?;
    let block = piece_at(alloc, done, block)?;
    to_method(alloc, returns, verb, patterns, guard, block)
}

/// `method`
pub(crate) fn method_piece(
    alloc: Global,
    done: &[Part],
    verb: &str,
    patterns: &[NodeId],
    guard: &Option<NodeId>,
    block: NodeId,
) -> Result<Seq<Node>, Memory>
    ensures { IfOk result (λ piece. piece ≡ plain_method (verb_behind verb.now) (pieces_at done.now patterns.now) (piece_if done.now guard.now) (piece_at done.now block)) }
{
    let verb = verb_behind(alloc, verb)?;
    let patterns = pieces_at(alloc, done, patterns)?;
    let guard = piece_if(alloc, done, guard)?;
    let block = piece_at(alloc, done, block)?;
    plain_method(alloc, verb, patterns, guard, block)
}

/// `match`
pub(crate) fn matcher_piece(
    alloc: Global,
    done: &[Part],
    pattern: NodeId,
    block: NodeId,
) -> Result<Seq<Node>, Memory>
    ensures { IfOk result (λ piece. piece ≡ matcher (piece_at done.now pattern) (piece_at done.now block)) }
{
    let pattern = piece_at(alloc, done, pattern)?;
    let block = piece_at(alloc, done, block)?;
    matcher(alloc, pattern, block)
}
