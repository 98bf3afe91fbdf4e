//! Parts come to an end in nodes that leave their scope as it was.

ghost use Rattle.std.specs.Prelude.{◌≡◌, drop};
ghost use Rattle.ev_steps.specs.Steps.{after_turn, again_by, at_last, caught_by, escaped, evaluator, iterate, tried, turns};
ghost use Rattle.def_kernel.specs.declared.node.Node.TheVariants.{Escape as EscapeNode, Finally, Try as TryNode};
ghost use Rattle.ev_refs.specs.Follow.{followed};
ghost use Rattle.ev_room.specs.Acts.{and_then, closed_by};
ghost use Rattle.ev_room.specs.declared.scope.Scope.{Scope as Surroundings};
ghost use Rattle.ev_frames.specs.Rest.{Goes, Nested, Stays, came_back, guarding, rest, settled};

use crate::guards::handle;
use ev_base::{NodeId, ObjId, Seq, Value};
use ev_frames::audits::audit_ended;
use ev_frames::frames::{Frames, Guard};
use ev_frames::natives::{members_from, turns_from};
use ev_frames::now::{Now, guard};
use ev_heap::Happened;
use ev_prims::Problem;
use ev_room::Program;
use ev_room::call::closed;
use ev_room::data::problem_id;
use ev_room::ejector::{is_same, kill};
use ev_room::exit::{Came, Exit};
use ev_room::room::{Room, tell};
use ev_room::scope::Scope;

/// How something ended that came to an end so.
#[tactic(auto, unfolding(ev_frames::specs::Rest::came_back))]
pub(crate) fn back(came: Came) -> Result<Value, Exit>
    ensures { result ≡ came_back came }
{
    match came {
        Came::Gave(value) => Ok(value),
        Came::Threw(id) => Err(Exit::Thrown(id)),
        Came::Left(by, value) => Err(Exit::Ejected(by, value)),
    }
}

/// What becomes of a value that left by the own ejector of an escape.
#[tactic(auto, using(crate::proofs::Guarding::got_ends, crate::proofs::Guarding::got_none, crate::proofs::Guarding::got_some))]
fn caught(
    program: &Program,
    depth: u32,
    catch: Option<(NodeId, NodeId)>,
    value: Value,
    frames: &mut Frames,
    here: &mut Scope,
    room: &mut Room,
) -> Result<Now, Exit>
    requires nested { Nested frames.old here.old }
    ensures rest { Goes program.now result frames.new here.new room.new (rest program.now frames.old here.old (settled here.old (caught_by (evaluator program.now depth) catch value here.old room.old))) }
    ensures nested { Stays result frames.new here.new }
{
    let told = value;
    tell(room, Happened::Got(here.act, told))?;
    match catch {
        None => Ok(Now::Ended(Came::Gave(value))),
        Some((pattern, id)) => {
            guard(depth, Guard::Alone, frames, here)?;
            handle(program, depth, pattern, id, value, frames, here, room)
        }
    }
}

/// The body of an escape has come to an end. However it did, the ejector is dead after it.
#[tactic(auto, using(crate::proofs::Guarding::escape_gave, crate::proofs::Guarding::escape_threw, crate::proofs::Guarding::escape_own, crate::proofs::Guarding::escape_other))]
fn escape_ended(
    program: &Program,
    depth: u32,
    catch: Option<(NodeId, NodeId)>,
    ejector: ObjId,
    came: Came,
    frames: &mut Frames,
    here: &mut Scope,
    room: &mut Room,
) -> Result<Now, Exit>
    requires nested { Nested frames.old here.old }
    ensures rest { Goes program.now result frames.new here.new room.new (rest program.now frames.old here.old (settled here.old (escaped (evaluator program.now depth) ejector catch here.old (came_back came, room.old)))) }
    ensures nested { Stays result frames.new here.new }
{
    kill(ejector, room);
    match came {
        Came::Gave(value) => Ok(Now::Ended(Came::Gave(value))),
        Came::Threw(id) => Ok(Now::Ended(Came::Threw(id))),
        Came::Left(by, value) => {
            let own = is_same(by, ejector);
            if own {
                caught(program, depth, catch, value, frames, here, room)
            } else {
                Ok(Now::Ended(Came::Left(by, value)))
            }
        }
    }
}

/// The body of a try has come to an end.
#[tactic(auto, using(crate::proofs::Guarding::try_gave, crate::proofs::Guarding::try_threw, crate::proofs::Guarding::try_left))]
fn try_ended(
    program: &Program,
    depth: u32,
    pattern: NodeId,
    handler: NodeId,
    came: Came,
    frames: &mut Frames,
    here: &mut Scope,
    room: &mut Room,
) -> Result<Now, Exit>
    requires nested { Nested frames.old here.old }
    ensures rest { Goes program.now result frames.new here.new room.new (rest program.now frames.old here.old (settled here.old (tried (evaluator program.now depth) pattern handler here.old (came_back came, room.old)))) }
    ensures nested { Stays result frames.new here.new }
{
    match came {
        Came::Threw(id) => {
            guard(depth, Guard::Alone, frames, here)?;
            handle(
                program,
                depth,
                pattern,
                handler,
                Value::Text(id),
                frames,
                here,
                room,
            )
        }
        Came::Gave(value) => Ok(Now::Ended(Came::Gave(value))),
        Came::Left(by, value) => Ok(Now::Ended(Came::Left(by, value))),
    }
}

/// The first part of a finally has come to an end.
#[tactic(auto, using(crate::proofs::Guarding::last_begins))]
fn first_ended(
    program: &Program,
    depth: u32,
    last: NodeId,
    came: Came,
    frames: &mut Frames,
    here: &Scope,
    room: &mut Room,
) -> Result<Now, Exit>
    requires nested { Nested frames.old here.now }
    ensures rest { Goes program.now result frames.new here.now room.new (rest program.now frames.old here.now (settled here.now (at_last (evaluator program.now depth) last here.now (came_back came, room.old)))) }
    ensures nested { Stays result frames.new here.now }
{
    guard(depth, Guard::Last(came), frames, here)?;
    Ok(Now::Begin(depth, last))
}

/// A call of an iteration has come to an end.
#[tactic(auto, using(ev_frames::proofs::Rests::gone), unfolding(ev_frames::specs::Rest::came_back, ev_room::specs::Acts::and_then))]
fn member_ended(
    program: &Program,
    depth: u32,
    levels: Option<u128>,
    object: Value,
    members: Seq<Value>,
    place: usize,
    came: Came,
    frames: &mut Frames,
    here: &Scope,
    room: &mut Room,
) -> Result<Now, Exit>
    requires nested { Nested frames.old here.now }
    ensures rest { Goes program.now result frames.new here.now room.new (rest program.now frames.old here.now (settled here.now (and_then (came_back came, room.old) (λ _. iterate (again_by program.now (evaluator program.now depth) levels) here.now.act object place (drop place members))))) }
    ensures nested { Stays result frames.new here.now }
{
    match came {
        Came::Gave(_) => members_from(
            program, depth, levels, object, members, place, frames, here, room,
        ),
        Came::Threw(id) => Err(Exit::Thrown(id)),
        Came::Left(by, value) => Err(Exit::Ejected(by, value)),
    }
}

/// A turn of a loop has a value, which tells whether there is another.
#[tactic(auto, unfolding(ev_steps::specs::Steps::after_turn, ev_room::specs::Acts::and_then, ev_room::specs::Acts::give, ev_room::specs::Acts::fails, ev_room::specs::Acts::fail))]
fn turn_gave(
    program: &Program,
    depth: u32,
    levels: Option<u128>,
    object: Value,
    left: u64,
    value: Value,
    frames: &mut Frames,
    here: &Scope,
    room: &mut Room,
) -> Result<Now, Exit>
    requires nested { Nested frames.old here.now }
    ensures rest { Goes program.now result frames.new here.now room.new (rest program.now frames.old here.now (settled here.now (after_turn (turns (again_by program.now (evaluator program.now depth) levels) here.now.act object left) value room.old))) }
    ensures nested { Stays result frames.new here.now }
{
    match value {
        Value::Bool(true) => turns_from(program, depth, levels, object, left, frames, here, room),
        Value::Bool(false) => Ok(Now::Ended(Came::Gave(Value::Null))),
        _ => Err(Exit::Thrown(problem_id(Problem::NotBoolean))),
    }
}

/// A turn of a loop has come to an end.
#[tactic(auto, using(ev_frames::proofs::Native::turn_goes, ev_frames::proofs::Rests::gone), unfolding(ev_frames::specs::Rest::came_back, ev_room::specs::Acts::and_then))]
fn turn_ended(
    program: &Program,
    depth: u32,
    levels: Option<u128>,
    object: Value,
    left: u64,
    came: Came,
    frames: &mut Frames,
    here: &Scope,
    room: &mut Room,
) -> Result<Now, Exit>
    requires nested { Nested frames.old here.now }
    ensures rest { Goes program.now result frames.new here.now room.new (rest program.now frames.old here.now (settled here.now (and_then (came_back came, room.old) (λ x s. after_turn (turns (again_by program.now (evaluator program.now depth) levels) here.now.act object left) (followed s.refs x) s)))) }
    ensures nested { Stays result frames.new here.now }
{
    match came {
        Came::Gave(value) => {
            let answer = room.refs.deref(value);
            turn_gave(
                program, depth, levels, object, left, answer, frames, here, room,
            )
        }
        Came::Threw(id) => Err(Exit::Thrown(id)),
        Came::Left(by, value) => Err(Exit::Ejected(by, value)),
    }
}

/// A part has come to an end of a node that leaves its scope as it was, which is this again.
#[tactic(auto, using(crate::proofs::Guarding::alone_ends, crate::proofs::Guarding::last_gave, crate::proofs::Guarding::last_threw, crate::proofs::Guarding::last_left, ev_frames::proofs::Calling::settled_gave, ev_frames::proofs::Calling::settled_ended, ev_frames::proofs::Rests::gone), unfolding(ev_frames::specs::Rest::guarding))]
pub(crate) fn guard_ended(
    program: &Program,
    depth: u32,
    guard: Guard,
    came: Came,
    frames: &mut Frames,
    here: &mut Scope,
    room: &mut Room,
) -> Result<Now, Exit>
    requires nested { Nested frames.old here.old }
    ensures rest { Goes program.now result frames.new here.new room.new (rest program.now frames.old here.old (settled here.old (guarding program.now (evaluator program.now depth) guard here.old (came_back came, room.old)))) }
    ensures nested { Stays result frames.new here.new }
{
    match guard {
        Guard::Alone => Ok(Now::Ended(came)),
        Guard::Escape(ejector, catch) => escape_ended(
            program, depth, catch, ejector, came, frames, here, room,
        ),
        Guard::Try(pattern, handler) => try_ended(
            program, depth, pattern, handler, came, frames, here, room,
        ),
        Guard::First(last) => first_ended(program, depth, last, came, frames, here, room),
        Guard::Audit(audition) => audit_ended(program, audition, came, frames, here, room),
        Guard::Close => {
            let value = closed(here.act, back(came), room)?;
            Ok(Now::Ended(Came::Gave(value)))
        }
        Guard::Members(levels, object, members, place) => member_ended(
            program, depth, levels, object, members, place, came, frames, here, room,
        ),
        Guard::Turns(levels, object, left) => turn_ended(
            program, depth, levels, object, left, came, frames, here, room,
        ),
        Guard::Last(first) => match came {
            Came::Gave(_) => Ok(Now::Ended(first)),
            Came::Threw(id) => Ok(Now::Ended(Came::Threw(id))),
            Came::Left(by, value) => Ok(Now::Ended(Came::Left(by, value))),
        },
    }
}
