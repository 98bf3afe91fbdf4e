//! Calls again of data and primitives.

ghost use Rattle.std.specs.Prelude.{◌≡◌, drop, slice_get};
ghost use Rattle.ev_steps.specs.Steps.{again_by, evaluator, iterate, turns};
ghost use Rattle.ev_frames.specs.Rest.{Goes, Nested, Stays, rest, settled};

use crate::frames::{Frames, Guard};
use crate::now::{Now, guard};
use ev_base::{Seq, Value};
use ev_room::Program;
use ev_room::exit::{Came, Exit};
use ev_room::room::Room;
use ev_room::scope::Scope;

/// The member of that place, if there are so many.
pub(crate) fn member_at(members: &[Value], place: usize) -> Option<Value>
    ensures { result ≡ slice_get members.now place }
{
    match members.get(place) {
        None => None,
        Some(member) => Some(*member),
    }
}

/// An iteration goes on from a place.
#[tactic(auto, using(crate::proofs::Native::member_begins, crate::proofs::Native::members_done))]
pub fn members_from(
    program: &Program,
    depth: u32,
    levels: Option<u128>,
    object: Value,
    members: Seq<Value>,
    place: usize,
    frames: &mut Frames,
    here: &Scope,
    room: &mut Room,
) -> Result<Now, Exit>
    requires nested { Nested frames.old here.now }
    ensures rest { Goes program.now result frames.new here.now room.new (rest program.now frames.old here.now (settled here.now (iterate (again_by program.now (evaluator program.now depth) levels) here.now.act object place (drop place members) room.old))) }
    ensures nested { Stays result frames.new here.now }
{
    match member_at(members.as_slice(), place) {
        None => Ok(Now::Ended(Came::Gave(Value::Null))),
        Some(member) => {
            let called = object;
            guard(
                depth,
                Guard::Members(levels, called, members, place + 1),
                frames,
                here,
            )?;
            Ok(Now::Member(depth, levels, object, place, member))
        }
    }
}

/// A loop goes on that may have so many turns.
#[tactic(auto, using(crate::proofs::Native::turn_begins, crate::proofs::Native::turns_none))]
pub fn turns_from(
    program: &Program,
    depth: u32,
    levels: Option<u128>,
    object: Value,
    left: u64,
    frames: &mut Frames,
    here: &Scope,
    room: &mut Room,
) -> Result<Now, Exit>
    requires nested { Nested frames.old here.now }
    ensures rest { Goes program.now result frames.new here.now room.new (rest program.now frames.old here.now (settled here.now (turns (again_by program.now (evaluator program.now depth) levels) here.now.act object left room.old))) }
    ensures nested { Stays result frames.new here.now }
{
    if left == 0 {
        return Err(Exit::Fuel);
    }
    let called = object;
    guard(depth, Guard::Turns(levels, called, left - 1), frames, here)?;
    Ok(Now::Turn(depth, levels, object))
}
