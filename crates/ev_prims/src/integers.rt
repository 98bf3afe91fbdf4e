//! What integers answer.

ghost use Rattle.std.specs.Prelude.{◌≡◌, Some};
ghost use Rattle.ev_prims.specs.Answers.{char_answer, int_alone, int_answer, int_joined, number_answer};
ghost use Rattle.ev_prims.specs.Verbs.{alone_named, code_of, operation_named};

use crate::problem::Problem;
use crate::reply::Reply;
use ev_base::Value;
use ev_integer::{IntOp, NumFault, apply};

/// The greatest code of a character.
const LAST_CODE: i128 = 0x10ffff;

/// The operation that a verb of one argument names.
#[tactic(auto, unfolding(crate::specs::Verbs::operation_named))]
fn operation(verb: &str) -> Option<IntOp>
    ensures { result ≡ operation_named verb.now }
{
    match verb {
        "add" => Some(IntOp::Add),
        "subtract" => Some(IntOp::Subtract),
        "multiply" => Some(IntOp::Multiply),
        "floorDivide" => Some(IntOp::FloorDivide),
        "remainder" => Some(IntOp::Remainder),
        "mod" => Some(IntOp::Mod),
        "pow" => Some(IntOp::Pow),
        "and" => Some(IntOp::And),
        "or" => Some(IntOp::Or),
        "xor" => Some(IntOp::Xor),
        _ => None,
    }
}

/// What arithmetic answers.
fn by_int(outcome: Result<i128, NumFault>) -> Reply
    ensures { result ≡ number_answer outcome }
{
    match outcome {
        Ok(number) => Reply::Says(Value::Int(number)),
        Err(fault) => Reply::Fails(Problem::Arithmetic(fault)),
    }
}

/// The character whose code an integer is.
#[tactic(auto, using(crate::proofs::IntegerLemmas::code_of_scalar, crate::proofs::IntegerLemmas::code_of_none, crate::proofs::IntegerLemmas::code_of_large), unfolding(crate::specs::Verbs::code_of))]
fn char_of(number: i128) -> Option<char>
    ensures { result ≡ code_of number }
{
    if 0 <= number && number <= LAST_CODE {
        char::from_u32(number as u32)
    } else {
        None
    }
}

/// The character whose code an integer is, as an answer.
fn as_char(number: i128) -> Reply
    ensures { result ≡ char_answer (code_of number) }
{
    match char_of(number) {
        Some(c) => Reply::Says(Value::Char(c)),
        None => Reply::Fails(Problem::NotChar),
    }
}

/// A verb of an integer without arguments.
#[derive(Clone, Copy)]
pub(crate) enum AloneVerb {
    Negate,
    ToChar,
}

/// The verb of no argument that a verb names.
#[tactic(auto, unfolding(crate::specs::Verbs::alone_named))]
fn unary(verb: &str) -> Option<AloneVerb>
    ensures { result ≡ alone_named verb.now }
{
    match verb {
        "negate" => Some(AloneVerb::Negate),
        "asChar" => Some(AloneVerb::ToChar),
        _ => None,
    }
}

/// What an integer answers to a verb without arguments.
#[tactic(auto, unfolding(crate::specs::Answers::int_alone))]
fn alone(number: i128, verb: &str) -> Reply
    ensures { result ≡ int_alone (alone_named verb.now) number }
{
    match unary(verb) {
        Some(AloneVerb::Negate) => by_int(apply(IntOp::Subtract, 0, number)),
        Some(AloneVerb::ToChar) => as_char(number),
        None => Reply::Fails(Problem::NoMethod),
    }
}

/// What an operation on an integer and an argument answers.
#[tactic(auto, unfolding(crate::specs::Answers::int_joined))]
fn joined(operation: IntOp, number: i128, argument: Value) -> Reply
    ensures { result ≡ int_joined (Some operation) number argument }
{
    match argument {
        Value::Int(other) => by_int(apply(operation, number, other)),
        _ => Reply::Fails(Problem::NotInt),
    }
}

/// What an integer answers to a verb with one argument.
#[tactic(auto, unfolding(crate::specs::Answers::int_joined))]
fn with_one(number: i128, verb: &str, argument: Value) -> Reply
    ensures { result ≡ int_joined (operation_named verb.now) number argument }
{
    match operation(verb) {
        Some(operation) => joined(operation, number, argument),
        None => Reply::Fails(Problem::NoMethod),
    }
}

/// What an integer answers to a verb, at followed arguments.
#[tactic(auto, unfolding(crate::specs::Answers::int_answer))]
pub(crate) fn int_reply(number: i128, verb: &str, args: &[Value]) -> Reply
    ensures { result ≡ int_answer number verb.now args.now }
{
    match args {
        [] => alone(number, verb),
        [argument] => with_one(number, verb, *argument),
        _ => Reply::Fails(Problem::NoMethod),
    }
}
