//! Lines of calls, and how calls end.

ghost use Rattle.std.specs.Prelude.{◌≡◌, Err};
ghost use Rattle.ev_room.specs.Acts.{Gives, closed_by};

use crate::exit::Exit;
use crate::room::{Room, tell};
use ev_base::{ActId, Value};
use ev_heap::Happened;

/// Tells how a call ended that gave no value, and ends so.
#[tactic(auto, using(crate::proofs::Exits::ends), unfolding(crate::specs::Acts::opened_acts))]
fn closed_without(act: ActId, exit: Exit, room: &mut Room) -> Result<Value, Exit>
    ensures outcome { Gives result room.new (closed_by act (Err exit, room.old)) }
{
    match exit {
        Exit::Thrown(id) => {
            tell(room, Happened::Thrown(act, Value::Text(id)))?;
            Err(exit)
        }
        Exit::Ejected(_, _) => {
            tell(room, Happened::Gone(act))?;
            Err(exit)
        }
        _ => Err(exit),
    }
}

/// Tells how a call ended, and ends so.
#[tactic(auto, using(crate::proofs::Exits::ends), unfolding(crate::specs::Acts::opened_acts))]
#[inline(always)]
pub fn closed(act: ActId, outcome: Result<Value, Exit>, room: &mut Room) -> Result<Value, Exit>
    ensures outcome { Gives result room.new (closed_by act (outcome, room.old)) }
{
    match outcome {
        Ok(value) => {
            let told = value;
            tell(room, Happened::Back(act, told))?;
            Ok(value)
        }
        Err(exit) => closed_without(act, exit, room),
    }
}
