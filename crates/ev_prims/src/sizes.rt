//! How many members a text or a list has, as an answer.

ghost use Rattle.std.specs.Prelude.{◌≡◌, ◌<◌, ◌^◌};
ghost use Rattle.ev_prims.specs.Answers.{size_answer};

use crate::problem::Problem;
use crate::reply::Reply;
use ev_base::Value;

/// What is answered to a verb without arguments, where there are so many members.
#[tactic(auto, unfolding(crate::specs::Answers::size_answer))]
pub(crate) fn size_reply(count: usize, verb: &str) -> Reply
    ensures { result ≡ size_answer count verb.now }
{
    if verb == "size" {
        Reply::Says(Value::Int(count as i128))
    } else {
        Reply::Fails(Problem::NoMethod)
    }
}
