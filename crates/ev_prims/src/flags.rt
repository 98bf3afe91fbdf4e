//! What booleans answer.

ghost use Rattle.std.specs.Prelude.{◌≡◌, [], Some};
ghost use Rattle.ev_prims.specs.Answers.{flag_answer, flag_joined, joined};
ghost use Rattle.ev_prims.specs.Verbs.{joining_named};

use crate::problem::Problem;
use crate::reply::Reply;
use ev_base::Value;

/// How two booleans are joined.
#[derive(Clone, Copy)]
pub(crate) enum Joining {
    Both,
    Either,
    Unlike,
}

/// The joining that a verb names.
#[tactic(auto, unfolding(crate::specs::Verbs::joining_named))]
fn joining_of(verb: &str) -> Option<Joining>
    ensures { result ≡ joining_named verb.now }
{
    match verb {
        "and" => Some(Joining::Both),
        "or" => Some(Joining::Either),
        "xor" => Some(Joining::Unlike),
        _ => None,
    }
}

/// Two booleans, joined.
fn joined(joining: Joining, a: bool, b: bool) -> bool
    ensures { result ≡ joined joining a b }
{
    match joining {
        Joining::Both => a && b,
        Joining::Either => a || b,
        Joining::Unlike => { if a { !b } else { b } }
    }
}

/// A boolean joined with an argument.
#[tactic(auto, unfolding(crate::specs::Answers::flag_joined))]
fn joined_with(joining: Joining, flag: bool, argument: Value) -> Reply
    ensures { result ≡ flag_joined (Some joining) flag argument }
{
    match argument {
        Value::Bool(other) => Reply::Says(Value::Bool(joined(joining, flag, other))),
        _ => Reply::Fails(Problem::NotBoolean),
    }
}

/// What a boolean answers to a verb with one argument.
#[tactic(auto, unfolding(crate::specs::Answers::flag_joined))]
fn with_one(flag: bool, verb: &str, argument: Value) -> Reply
    ensures { result ≡ flag_joined (joining_named verb.now) flag argument }
{
    match joining_of(verb) {
        Some(joining) => joined_with(joining, flag, argument),
        None => Reply::Fails(Problem::NoMethod),
    }
}

/// What a boolean answers to a verb without arguments.
#[tactic(auto, unfolding(crate::specs::Answers::flag_answer))]
fn alone(flag: bool, verb: &str) -> Reply
    ensures { result ≡ flag_answer flag verb.now [] }
{
    if verb == "not" {
        Reply::Says(Value::Bool(!flag))
    } else {
        Reply::Fails(Problem::NoMethod)
    }
}

/// What a boolean answers to a verb, at followed arguments.
#[tactic(auto, unfolding(crate::specs::Answers::flag_answer))]
pub(crate) fn flag_reply(flag: bool, verb: &str, args: &[Value]) -> Reply
    ensures { result ≡ flag_answer flag verb.now args.now }
{
    match args {
        [] => alone(flag, verb),
        [argument] => with_one(flag, verb, *argument),
        _ => Reply::Fails(Problem::NoMethod),
    }
}
