//! Objects, definitions, and what leaves them.

ghost use Rattle.std.specs.Prelude.{◌≡◌, IfOk};
ghost use Rattle.ev_desugar.specs.Rows.{defined_function, defined_object, defined_var, guarded, leave, noun_guard, object_pattern, plain_method, to_method, value_or_null};

use crate::asking::{ask, both_steps, named};
use crate::expressions::null;
use crate::lists::{one, two};
use crate::loops::leavable;
use crate::words::ejector;
use def_kernel::Node;
use ev_base::{Memory, Seq, Str};
use ev_piece::{any, call, def, final_pattern, method, noun, object, seq, variable};
use std::alloc::Global;

/// The result of a method is guarded.
#[tactic(auto, unfolding(crate::specs::Rows::guarded))]
fn guarded(alloc: Global, guard: Option<Seq<Node>>, body: Seq<Node>) -> Result<Seq<Node>, Memory>
    ensures { IfOk result (λ piece. piece ≡ guarded guard body) }
{
    match guard {
        None => Ok(body),
        Some(guard) => {
            let pattern = final_pattern(alloc, Str::copy_of(alloc, "__r")?, Some(guard))?;
            let bound = def(alloc, pattern, None, body)?;
            let value = named(alloc, "__r")?;
            both_steps(alloc, bound, value)
        }
    }
}

/// `to v(p) B`, whether a `return` of its own is there.
#[tactic(auto, unfolding(crate::specs::Rows::to_method))]
pub fn to_method(
    alloc: Global,
    returns: bool,
    verb: Str,
    patterns: Seq<Seq<Node>>,
    guard: Option<Seq<Node>>,
    block: Seq<Node>,
) -> Result<Seq<Node>, Memory>
    ensures { IfOk result (λ piece. piece ≡ to_method returns verb patterns guard block) }
{
    let last = null(alloc)?;
    let steps = both_steps(alloc, block, last)?;
    let steps = leavable(alloc, returns, "__return", steps)?;
    let body = guarded(alloc, guard, steps)?;
    method(alloc, verb, patterns, body)
}

/// `method v(p) B`
#[tactic(auto, unfolding(crate::specs::Rows::plain_method))]
pub fn plain_method(
    alloc: Global,
    verb: Str,
    patterns: Seq<Seq<Node>>,
    guard: Option<Seq<Node>>,
    block: Seq<Node>,
) -> Result<Seq<Node>, Memory>
    ensures { IfOk result (λ piece. piece ≡ plain_method verb patterns guard block) }
{
    let body = guarded(alloc, guard, block)?;
    method(alloc, verb, patterns, body)
}

/// The pattern that names an object.
#[tactic(auto, unfolding(crate::specs::Rows::object_pattern))]
fn object_pattern(alloc: Global, name: Option<Str>) -> Result<Seq<Node>, Memory>
    ensures { IfOk result (λ piece. piece ≡ object_pattern name) }
{
    match name {
        None => any(alloc, None),
        Some(name) => final_pattern(alloc, name, None),
    }
}

/// `def x {..}`, `def _ {..}`
#[tactic(auto, unfolding(crate::specs::Rows::defined_object))]
pub fn defined_object(
    alloc: Global,
    name: Option<Str>,
    auditors: Seq<Seq<Node>>,
    members: Seq<Seq<Node>>,
) -> Result<Seq<Node>, Memory>
    ensures { IfOk result (λ piece. piece ≡ defined_object name auditors members) }
{
    let pattern = object_pattern(alloc, name)?;
    object(alloc, pattern, auditors, members)
}

/// `def f(p) B`
#[tactic(auto, unfolding(crate::specs::Rows::defined_function))]
pub fn defined_function(
    alloc: Global,
    returns: bool,
    name: Str,
    patterns: Seq<Seq<Node>>,
    guard: Option<Seq<Node>>,
    auditors: Seq<Seq<Node>>,
    block: Seq<Node>,
) -> Result<Seq<Node>, Memory>
    ensures { IfOk result (λ piece. piece ≡ defined_function returns name patterns guard auditors block) }
{
    let run = to_method(
        alloc,
        returns,
        Str::copy_of(alloc, "run")?,
        patterns,
        guard,
        block,
    )?;
    let members = one(alloc, run)?;
    defined_object(alloc, Some(name), auditors, members)
}

/// `var x :G exit j := e`
#[tactic(auto, unfolding(crate::specs::Rows::defined_var))]
pub fn defined_var(
    alloc: Global,
    name: Str,
    guard: Option<Seq<Node>>,
    exit: Option<Seq<Node>>,
    value: Seq<Node>,
) -> Result<Seq<Node>, Memory>
    ensures { IfOk result (λ piece. piece ≡ defined_var name guard exit value) }
{
    let pattern = variable(alloc, name, guard)?;
    def(alloc, pattern, exit, value)
}

/// The value with which a form is left.
#[tactic(auto, unfolding(crate::specs::Rows::value_or_null))]
fn value_or_null(alloc: Global, value: Option<Seq<Node>>) -> Result<Seq<Node>, Memory>
    ensures { IfOk result (λ piece. piece ≡ value_or_null value) }
{
    match value {
        None => null(alloc),
        Some(value) => Ok(value),
    }
}

/// `return e`, `break e`, `continue e`
#[tactic(auto, unfolding(crate::specs::Rows::leave))]
pub fn leave(alloc: Global, word: &str, value: Option<Seq<Node>>) -> Result<Seq<Node>, Memory>
    ensures { IfOk result (λ piece. piece ≡ leave word.now value) }
{
    let name = ejector(alloc, word)?;
    let left = noun(alloc, name)?;
    let value = value_or_null(alloc, value)?;
    let args = one(alloc, value)?;
    ask(alloc, left, "run", args)
}

/// A guard `g[x]`.
#[tactic(auto, using(crate::proofs::Lengths::noun_guard_some), unfolding(crate::specs::Rows::noun_guard))]
pub fn noun_guard(alloc: Global, name: Str, args: Seq<Seq<Node>>) -> Result<Seq<Node>, Memory>
    ensures { IfOk result (λ piece. piece ≡ noun_guard name args) }
{
    if args.is_empty() {
        return noun(alloc, name);
    }
    let guard = noun(alloc, name)?;
    ask(alloc, guard, "get", args)
}
