//! Refusals of guards that are called, at any level of calls again.

ghost use Rattle.std.specs.Prelude.{◌≡◌};
ghost use Rattle.ev_steps.specs.Steps.{again_by, coerced_as, evaluator, failed};
ghost use Rattle.ev_room.specs.Takings.{is_null};
ghost use Rattle.ev_room.specs.Coercion.{guard_coerced};
ghost use Rattle.ev_refs.specs.Follow.{followed};
ghost use Rattle.ev_frames.specs.Rest.{Goes, Nested, Stays, rest, settled};

use crate::frames::{Frames, Part};
use crate::now::{Now, enter};
use ev_base::{TextId, Value};
use ev_prims::Guard;
use ev_room::Program;
use ev_room::coercion::{Coerced, guard_coerced};
use ev_room::exit::{Came, Exit};
use ev_room::room::Room;
use ev_room::scope::Scope;

/// The problem of what is no guard and is to coerce.
pub const NOT_A_GUARD: TextId = TextId(17);

/// Whether a value is null.
pub fn is_null(value: Value) -> bool
    ensures { result ≡ is_null value }
{
    match value {
        Value::Null => true,
        _ => false,
    }
}

/// A refusal calls the ejector where there is one, and throws where that comes back.
#[tactic(auto, using(crate::proofs::Failing::refuses_at_once, crate::proofs::Failing::refuses_by))]
fn refuses(
    program: &Program,
    depth: u32,
    levels: Option<u128>,
    ejector: Value,
    problem: TextId,
    frames: &mut Frames,
    here: &Scope,
    room: &Room,
) -> Result<Now, Exit>
    requires nested { Nested frames.old here.now }
    ensures rest { Goes program.now result frames.new here.now room.now (rest program.now frames.old here.now (settled here.now (failed (again_by program.now (evaluator program.now depth) levels) here.now.act ejector problem room.now))) }
    ensures nested { Stays result frames.new here.now }
{
    let tested = ejector;
    if is_null(room.refs.deref(tested)) {
        return Err(Exit::Thrown(problem));
    }
    enter(depth, Part::Fails(problem), frames, here)?;
    Ok(Now::Refuse(depth, levels, ejector, problem))
}

/// A native guard is asked to coerce a specimen with an ejector.
#[tactic(auto, using(crate::proofs::Calling::settled_gave, crate::proofs::Calling::settled_ended, crate::proofs::Rests::gone), unfolding(ev_steps::specs::Steps::coerced_as, ev_room::specs::Acts::and_then, ev_room::specs::Acts::give, ev_room::specs::Acts::fail))]
pub(crate) fn coerces(
    program: &Program,
    depth: u32,
    levels: Option<u128>,
    guard: Guard,
    specimen: Value,
    ejector: Value,
    frames: &mut Frames,
    here: &Scope,
    room: &Room,
) -> Result<Now, Exit>
    requires nested { Nested frames.old here.now }
    ensures rest { Goes program.now result frames.new here.now room.now (rest program.now frames.old here.now (settled here.now (coerced_as (again_by program.now (evaluator program.now depth) levels) here.now.act ejector (guard_coerced room.now.heap guard specimen (followed room.now.refs specimen)) room.now))) }
    ensures nested { Stays result frames.new here.now }
{
    let held = specimen;
    let near = room.refs.deref(held);
    match guard_coerced(&room.heap, guard, specimen, near) {
        Coerced::Takes(value) => Ok(Now::Ended(Came::Gave(value))),
        Coerced::Refuses(problem) => {
            refuses(program, depth, levels, ejector, problem, frames, here, room)
        }
        Coerced::NoGuard => Err(Exit::Thrown(NOT_A_GUARD)),
        Coerced::Astray => Err(Exit::Astray),
    }
}
