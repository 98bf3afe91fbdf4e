//! What lists answer.

ghost use Rattle.std.specs.Prelude.{◌≡◌, ◌+◌, ◌≤◌, All, IfOk, codes, length, ◌++◌, ◌∷◌, []};
ghost use Rattle.ev_base.specs.declared.values.Value.TheVariants.{Int};
ghost use Rattle.ev_heap.specs.Contents.{IsWeighable};
ghost use Rattle.def_machine.specs.Native as native;
ghost use Rattle.ev_prims.specs.Answers.{got, list_and, list_answer, list_ran, list_with, members_at};
ghost use Rattle.ev_prims.specs.Verbs.{list_verb_named, picked};
ghost use Rattle.ev_prims.specs.declared.problem.Problem.TheVariants.{NoMethod};
ghost use Rattle.ev_prims.specs.declared.reply.Reply.TheVariants as reply;

use crate::forms::{Form, form_of};
use crate::places::{index_in, range_in};
use crate::problem::Problem;
use crate::reply::Reply;
use crate::sizes::size_reply;
use crate::verbs::{SeqVerb, list_verb};
use ev_base::{Memory, Seq, Value};
use ev_heap::Heap;
use std::alloc::Global;

/// The member at an index.
#[tactic(auto, using(crate::proofs::SeqLemmas::member_at), unfolding(crate::specs::Answers::got))]
fn got_at(members: &[Value], index: i128) -> Reply
    ensures { result ≡ got members.now (Int index) }
{
    match index_in(members.len(), index) {
        Some(place) => Reply::Says(members[place]),
        None => Reply::Fails(Problem::OutOfRange),
    }
}

/// The member at what is to be an index.
#[tactic(auto, unfolding(crate::specs::Answers::got))]
fn got(members: &[Value], index: Value) -> Reply
    ensures { result ≡ got members.now index }
{
    match index {
        Value::Int(index) => got_at(members, index),
        _ => Reply::Fails(Problem::BadArgument),
    }
}

/// A copy of these members.
fn copy_of(alloc: Global, members: &[Value]) -> Result<Seq<Value>, Memory>
    ensures { IfOk result (λ copy. copy ≡ members.now) }
{
    Ok(Seq::of(Vec::from_slice(alloc, members)?))
}

/// So many members from a place on.
#[tactic(auto, using(crate::proofs::SeqLemmas::part_is))]
fn part(members: &[Value], first: usize, count: usize) -> &[Value]
    requires { first + count ≤ length members.now }
    ensures { result.now ≡ native.part_of first count members.now }
{
    &members[first..first + count]
}

/// The members from an index to before another, as a list.
#[tactic(auto, unfolding(crate::specs::Answers::list_ran))]
fn ran_between(alloc: Global, members: &[Value], start: i128, end: i128) -> Result<Reply, Memory>
    ensures { IfOk result (λ r. r ≡ list_ran members.now (Int start) (Int end)) }
{
    match range_in(members.len(), start, end) {
        Some((first, count)) => {
            let copy = copy_of(alloc, part(members, first, count))?;
            Ok(Reply::Lists(copy))
        }
        None => Ok(Reply::Fails(Problem::OutOfRange)),
    }
}

/// The members between what are to be two indices, as a list.
#[tactic(auto, unfolding(crate::specs::Answers::list_ran))]
fn ran(alloc: Global, members: &[Value], start: Value, end: Value) -> Result<Reply, Memory>
    ensures { IfOk result (λ r. r ≡ list_ran members.now start end) }
{
    match start {
        Value::Int(start) => match end {
            Value::Int(end) => ran_between(alloc, members, start, end),
            _ => Ok(Reply::Fails(Problem::BadArgument)),
        },
        _ => Ok(Reply::Fails(Problem::BadArgument)),
    }
}

/// These members with others behind them.
fn joined(alloc: Global, members: &[Value], more: &[Value]) -> Result<Seq<Value>, Memory>
    ensures { IfOk result (λ all. all ≡ members.now ++ more.now) }
{
    let mut all = Vec::from_slice(alloc, members)?;
    all.extend_from_slice(more)?;
    Ok(Seq::of(all))
}

/// A list with another behind it.
#[tactic(auto, using(crate::proofs::SeqLemmas::members_here), unfolding(crate::specs::Answers::list_and))]
fn list_and(alloc: Global, heap: &Heap, members: &[Value], argument: Value) -> Result<Reply, Memory>
    requires { IsWeighable heap.now argument }
    ensures { IfOk result (λ r. r ≡ list_and (members_at heap.now) members.now argument) }
{
    match argument {
        Value::List(id) => Ok(Reply::Lists(joined(alloc, members, heap.members(id))?)),
        _ => Ok(Reply::Fails(Problem::NotList)),
    }
}

/// A list with one more member behind the others.
fn with_member(alloc: Global, members: &[Value], member: Value) -> Result<Reply, Memory>
    ensures { IfOk result (λ r. r ≡ reply.Lists (members.now ++ member ∷ [])) }
{
    let mut all = copy_of(alloc, members)?;
    all.push(member)?;
    Ok(Reply::Lists(all))
}

/// The members of a list, one by one.
fn iterated(alloc: Global, members: &[Value], held: Value) -> Result<Reply, Memory>
    ensures { IfOk result (λ r. r ≡ reply.Iterates held members.now) }
{
    Ok(Reply::Iterates(held, copy_of(alloc, members)?))
}

/// What a list answers to a verb with one argument.
#[tactic(auto, unfolding(crate::specs::Answers::list_with))]
fn with_one(
    alloc: Global,
    heap: &Heap,
    members: &[Value],
    verb: &str,
    held: Value,
    argument: Value,
) -> Result<Reply, Memory>
    requires { IsWeighable heap.now argument }
    ensures { IfOk result (λ r. r ≡ list_with (members_at heap.now) (list_verb_named verb.now) members.now held argument) }
{
    match list_verb(verb) {
        Some(SeqVerb::Get) => Ok(got(members, argument)),
        Some(SeqVerb::Add) => list_and(alloc, heap, members, argument),
        Some(SeqVerb::With) => with_member(alloc, members, held),
        Some(SeqVerb::Iterate) => iterated(alloc, members, held),
        None => Ok(Reply::Fails(Problem::NoMethod)),
    }
}

/// What a list answers to a verb with two arguments.
fn with_two(
    alloc: Global,
    members: &[Value],
    verb: &str,
    start: Value,
    end: Value,
) -> Result<Reply, Memory>
    ensures { IfOk result (λ r. r ≡ picked ((codes "run", list_ran members.now start end) ∷ []) (reply.Fails NoMethod) verb.now) }
{
    if verb == "run" {
        ran(alloc, members, start, end)
    } else {
        Ok(Reply::Fails(Problem::NoMethod))
    }
}

/// What a list of these members answers to a verb, with its arguments as they are held and as they are followed.
#[tactic(auto, using(crate::proofs::FormLemmas::good_one), unfolding(crate::specs::Answers::list_formed))]
pub(crate) fn list_reply(
    alloc: Global,
    heap: &Heap,
    members: &[Value],
    verb: &str,
    held: &[Value],
    args: &[Value],
) -> Result<Reply, Memory>
    requires { All (IsWeighable heap.now) args.now }
    ensures { IfOk result (λ r. r ≡ list_answer (members_at heap.now) members.now verb.now held.now args.now) }
{
    match form_of(held, args) {
        Form::Alone => Ok(size_reply(members.len(), verb)),
        Form::One(held, argument) => with_one(alloc, heap, members, verb, held, argument),
        Form::Two(start, end) => with_two(alloc, members, verb, start, end),
        Form::Other => Ok(Reply::Fails(Problem::NoMethod)),
    }
}
