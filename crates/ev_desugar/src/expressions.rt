//! Expressions with operators, calls, sends and assignments.

ghost use Rattle.std.specs.Prelude.{◌≡◌, IfOk};
ghost use Rattle.ev_desugar.specs.Rows.{assign, binary, body, compared, computed, conditional, conjunction, different, disjunction, else_or_null, falsehood, made_list, null, prefix, put, same, send, sent_verb, truth};
ghost use Rattle.ev_desugar.specs.Words.{arithmetic, comparing};

use crate::asking::{ask, ask_named, named};
use crate::lists::{one, three, two};
use crate::words::{arithmetic, comparing, prefixing, ranging, updating};
use def_kernel::{Literal, Node};
use ev_base::{Memory, Seq, Str, Text};
use ev_piece::{if_, lit, seq, set};
use std::alloc::Global;

/// `null`
#[tactic(auto, unfolding(crate::specs::Rows::null))]
pub fn null(alloc: Global) -> Result<Seq<Node>, Memory>
    ensures { IfOk result (λ piece. piece ≡ null) }
{
    named(alloc, "null")
}

/// `true`
#[tactic(auto, unfolding(crate::specs::Rows::truth))]
pub fn truth(alloc: Global) -> Result<Seq<Node>, Memory>
    ensures { IfOk result (λ piece. piece ≡ truth) }
{
    named(alloc, "true")
}

/// `false`
#[tactic(auto, unfolding(crate::specs::Rows::falsehood))]
pub fn falsehood(alloc: Global) -> Result<Seq<Node>, Memory>
    ensures { IfOk result (λ piece. piece ≡ falsehood) }
{
    named(alloc, "false")
}

/// A block: of no expression null, of one this, of several a sequence.
#[tactic(auto, using(crate::proofs::Lengths::body_of_many, crate::proofs::Lengths::body_of_one, crate::proofs::Lengths::body_of_none))]
pub fn body(alloc: Global, items: Seq<Seq<Node>>) -> Result<Seq<Node>, Memory>
    ensures { IfOk result (λ piece. piece ≡ body items) }
{
    let mut items = items.into_vec();
    if items.len() > 1 {
        return seq(alloc, Seq::of(items));
    }
    match items.pop() {
        None => null(alloc),
        Some(only) => Ok(only),
    }
}

/// `[a, b]`
#[tactic(auto, unfolding(crate::specs::Rows::made_list))]
pub fn made_list(alloc: Global, items: Seq<Seq<Node>>) -> Result<Seq<Node>, Memory>
    ensures { IfOk result (λ piece. piece ≡ made_list items) }
{
    ask_named(alloc, "__makeList", "run", items)
}

/// The verb of a send.
#[tactic(auto, unfolding(crate::specs::Rows::sent_verb))]
fn sent_verb(alloc: Global, verb: Option<Str>) -> Result<Str, Memory>
    ensures { IfOk result (λ sent. sent ≡ sent_verb verb) }
{
    match verb {
        None => { Str::copy_of(alloc, "run") }
        Some(verb) => Ok(verb),
    }
}

/// `a <- v(x)`
#[tactic(auto, unfolding(crate::specs::Rows::send))]
pub fn send(
    alloc: Global,
    target: Seq<Node>,
    verb: Option<Str>,
    args: Seq<Seq<Node>>,
) -> Result<Seq<Node>, Memory>
    ensures { IfOk result (λ piece. piece ≡ send target verb args) }
{
    let verb = sent_verb(alloc, verb)?;
    let verb = lit(alloc, Literal::Text(Text::of(alloc, verb)?))?;
    let args = made_list(alloc, args)?;
    let args = three(alloc, target, verb, args)?;
    ask_named(alloc, "E", "send", args)
}

/// `x := e`, `x += e`
#[tactic(auto, unfolding(crate::specs::Rows::assign, crate::specs::Rows::assign_with))]
pub fn assign(
    alloc: Global,
    name: &str,
    operator: &str,
    value: Seq<Node>,
) -> Result<Seq<Node>, Memory>
    ensures { IfOk result (λ piece. piece ≡ assign name.now operator.now value) }
{
    match updating(operator) {
        None => set(alloc, Str::copy_of(alloc, name)?, value),
        Some(verb) => {
            let left = named(alloc, name)?;
            let args = one(alloc, value)?;
            let value = ask(alloc, left, verb, args)?;
            set(alloc, Str::copy_of(alloc, name)?, value)
        }
    }
}

/// `o[i] := e`
#[tactic(auto, unfolding(crate::specs::Rows::put))]
pub fn put(
    alloc: Global,
    object: Seq<Node>,
    args: Seq<Seq<Node>>,
    value: Seq<Node>,
) -> Result<Seq<Node>, Memory>
    ensures { IfOk result (λ piece. piece ≡ put object args value) }
{
    let mut args = args;
    args.push(value)?;
    ask(alloc, object, "put", args)
}

/// `-a`, `!a`
#[tactic(auto, unfolding(crate::specs::Rows::prefix))]
pub fn prefix(alloc: Global, operator: &str, value: Seq<Node>) -> Result<Seq<Node>, Memory>
    ensures { IfOk result (λ piece. piece ≡ prefix operator.now value) }
{
    ask(alloc, value, prefixing(operator), Seq::new(alloc))
}

/// `a == b`
#[tactic(auto, unfolding(crate::specs::Rows::same))]
fn same(alloc: Global, left: Seq<Node>, right: Seq<Node>) -> Result<Seq<Node>, Memory>
    ensures { IfOk result (λ piece. piece ≡ same left right) }
{
    let args = two(alloc, left, right)?;
    ask_named(alloc, "__equalizer", "sameEver", args)
}

/// `a != b`
#[tactic(auto, unfolding(crate::specs::Rows::different))]
fn different(alloc: Global, left: Seq<Node>, right: Seq<Node>) -> Result<Seq<Node>, Memory>
    ensures { IfOk result (λ piece. piece ≡ different left right) }
{
    let same = same(alloc, left, right)?;
    ask(alloc, same, "not", Seq::new(alloc))
}

/// `a && b`
#[tactic(auto, unfolding(crate::specs::Rows::conjunction))]
fn conjunction(alloc: Global, left: Seq<Node>, right: Seq<Node>) -> Result<Seq<Node>, Memory>
    ensures { IfOk result (λ piece. piece ≡ conjunction left right) }
{
    let yes = truth(alloc)?;
    let no = falsehood(alloc)?;
    let both = if_(alloc, right, yes, no)?;
    let no = falsehood(alloc)?;
    if_(alloc, left, both, no)
}

/// `a || b`
#[tactic(auto, unfolding(crate::specs::Rows::disjunction))]
fn disjunction(alloc: Global, left: Seq<Node>, right: Seq<Node>) -> Result<Seq<Node>, Memory>
    ensures { IfOk result (λ piece. piece ≡ disjunction left right) }
{
    let yes = truth(alloc)?;
    let no = falsehood(alloc)?;
    let other = if_(alloc, right, yes, no)?;
    let yes = truth(alloc)?;
    if_(alloc, left, yes, other)
}

/// `a < b` and its like, and ranges.
#[tactic(auto, unfolding(crate::specs::Rows::compared))]
fn compared(
    alloc: Global,
    left: Seq<Node>,
    operator: &str,
    right: Seq<Node>,
) -> Result<Seq<Node>, Memory>
    ensures { IfOk result (λ piece. piece ≡ compared (comparing operator.now) left operator.now right) }
{
    let args = two(alloc, left, right)?;
    match comparing(operator) {
        None => { ask_named(alloc, "__makeList", ranging(operator), args) }
        Some(verb) => { ask_named(alloc, "__comparer", verb, args) }
    }
}

/// `a + b` and its like, and the others.
#[tactic(auto, unfolding(crate::specs::Rows::computed))]
fn computed(
    alloc: Global,
    left: Seq<Node>,
    operator: &str,
    right: Seq<Node>,
) -> Result<Seq<Node>, Memory>
    ensures { IfOk result (λ piece. piece ≡ computed (arithmetic operator.now) left operator.now right) }
{
    match arithmetic(operator) {
        None => compared(alloc, left, operator, right),
        Some(verb) => {
            let args = one(alloc, right)?;
            ask(alloc, left, verb, args)
        }
    }
}

/// Two expressions with an operator between them.
#[tactic(auto, unfolding(crate::specs::Rows::binary))]
pub fn binary(
    alloc: Global,
    left: Seq<Node>,
    operator: &str,
    right: Seq<Node>,
) -> Result<Seq<Node>, Memory>
    ensures { IfOk result (λ piece. piece ≡ binary left operator.now right) }
{
    match operator {
        "==" => same(alloc, left, right),
        "!=" => different(alloc, left, right),
        "&&" => conjunction(alloc, left, right),
        "||" => disjunction(alloc, left, right),
        _ => computed(alloc, left, operator, right),
    }
}

/// What stands behind `else`.
#[tactic(auto, unfolding(crate::specs::Rows::else_or_null))]
fn else_or_null(alloc: Global, other: Option<Seq<Node>>) -> Result<Seq<Node>, Memory>
    ensures { IfOk result (λ piece. piece ≡ else_or_null other) }
{
    match other {
        None => null(alloc),
        Some(other) => Ok(other),
    }
}

/// `if (t) B else C`
#[tactic(auto, unfolding(crate::specs::Rows::conditional))]
pub fn conditional(
    alloc: Global,
    test: Seq<Node>,
    yes: Seq<Node>,
    no: Option<Seq<Node>>,
) -> Result<Seq<Node>, Memory>
    ensures { IfOk result (λ piece. piece ≡ conditional test yes no) }
{
    let no = else_or_null(alloc, no)?;
    if_(alloc, test, yes, no)
}
