//! What characters answer.

ghost use Rattle.std.specs.Prelude.{◌≡◌, []};
ghost use Rattle.ev_prims.specs.Answers.{letter_answer};

use crate::problem::Problem;
use crate::reply::Reply;
use ev_base::Value;

/// What a character answers to a verb without arguments.
#[tactic(auto, unfolding(crate::specs::Answers::letter_answer))]
fn alone(letter: char, verb: &str) -> Reply
    ensures { result ≡ letter_answer letter verb.now [] }
{
    if verb == "asInteger" {
        Reply::Says(Value::Int(i128::from(letter as u32)))
    } else {
        Reply::Fails(Problem::NoMethod)
    }
}

/// What a character answers to a verb, at followed arguments.
#[tactic(auto, unfolding(crate::specs::Answers::letter_answer))]
pub(crate) fn letter_reply(letter: char, verb: &str, args: &[Value]) -> Reply
    ensures { result ≡ letter_answer letter verb.now args.now }
{
    match args {
        [] => alone(letter, verb),
        _ => Reply::Fails(Problem::NoMethod),
    }
}
