//! What `Ref` tells of a value.

ghost use Rattle.std.specs.Prelude.{◌≡◌};
ghost use Rattle.ev_steps.specs.Eventual.{told_as, test_value};
ghost use Rattle.ev_room.specs.Acts.{Gives};

use ev_base::{TextId, Value};
use ev_prims::RefTest;
use ev_refs::RefReply;
use ev_room::Exit;
use ev_room::room::Room;

/// The problem of a promise that did not settle, where what it settled to is asked for.
pub const NOT_RESOLVED: TextId = TextId(45);

/// What `Ref` answers, as an activation gives or throws it.
#[tactic(auto, unfolding(crate::specs::Eventual::opened_eventual))]
fn told_as(reply: RefReply, room: &Room) -> Result<Value, Exit>
    ensures outcome { Gives result room.now (told_as reply room.now) }
{
    match reply {
        RefReply::Says(value) => Ok(value),
        RefReply::Problem(problem) => Err(Exit::Thrown(problem)),
        RefReply::NotResolved => Err(Exit::Thrown(NOT_RESOLVED)),
    }
}

/// `Ref.isNear`, `isFar`, `isResolved`, `isBroken`, `optProblem` and `fulfillment`: what a value is followed to, and where that is.
#[tactic(auto, unfolding(crate::specs::Eventual::test_value))]
pub fn test_value(test: RefTest, value: Value, room: &Room) -> Result<Value, Exit>
    ensures outcome { Gives result room.now (test_value test value room.now) }
{
    told_as(room.refs.ask_ref(test, value), room)
}
