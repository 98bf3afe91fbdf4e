//! Nodes begin that leave their scope as it was: escapes, tries, finallys and hides.

ghost use Rattle.ev_steps.specs.Steps.{evaluator, guarded_node};
ghost use Rattle.def_kernel.specs.declared.node.Node.TheVariants.{Escape as EscapeNode, Finally, Hide, Try as TryNode};
ghost use Rattle.ev_room.specs.declared.scope.Scope.{Scope as Surroundings};
ghost use Rattle.ev_frames.specs.Rest.{Goes, Nested, Stays, handled_on, rest};

use ev_base::{NodeId, Value};
use ev_frames::frames::{Frames, Guard, Part};
use ev_frames::now::{Now, enter, guard};
use ev_room::Program;
use ev_room::ejector::new_ejector;
use ev_room::exit::Exit;
use ev_room::room::Room;
use ev_room::scope::Scope;
use ev_steps::pattern::{Early, bind_at_once};

/// Binds a pattern to a value, and then an expression begins in the scope after it.
#[tactic(auto, using(crate::proofs::Patterning::handled_begins, crate::proofs::Patterning::handled_pushed, crate::proofs::Patterning::handled_ends, ev_frames::proofs::Rests::nested_behind, ev_frames::proofs::Rests::gone))]
pub(crate) fn handle(
    program: &Program,
    depth: u32,
    pattern: NodeId,
    id: NodeId,
    value: Value,
    frames: &mut Frames,
    here: &mut Scope,
    room: &mut Room,
) -> Result<Now, Exit>
    requires nested { Nested frames.old here.old }
    ensures rest { Goes program.now result frames.new here.new room.new (rest program.now frames.old here.old (handled_on (evaluator program.now depth) pattern id value here.old room.old)) }
    ensures nested { Stays result frames.new here.new }
{
    let bound = value;
    match bind_at_once(program, depth, pattern, bound, Value::Null, here, room)? {
        Early::Bound => Ok(Now::Begin(depth, id)),
        Early::Later => {
            enter(depth, Part::Then(id), frames, here)?;
            Ok(Now::Bind(depth, pattern, value, Value::Null))
        }
    }
}

/// An escape begins.
#[tactic(auto, using(crate::proofs::Guarding::escape_begins, crate::proofs::Guarding::ejector_ends, ev_frames::proofs::Rests::gone))]
pub(crate) fn escape_node(
    program: &Program,
    depth: u32,
    pattern: NodeId,
    body: NodeId,
    caught: Option<(NodeId, NodeId)>,
    frames: &mut Frames,
    here: &mut Scope,
    room: &mut Room,
) -> Result<Now, Exit>
    requires nested { Nested frames.old here.old }
    ensures rest { Goes program.now result frames.new here.new room.new (rest program.now frames.old here.old (guarded_node (evaluator program.now depth) (EscapeNode pattern body caught) here.old room.old)) }
    ensures nested { Stays result frames.new here.new }
{
    let ejector = new_ejector(here.act, room)?;
    guard(depth, Guard::Escape(ejector, caught), frames, here)?;
    handle(
        program,
        depth,
        pattern,
        body,
        Value::Obj(ejector),
        frames,
        here,
        room,
    )
}

/// A try begins.
#[tactic(auto, using(crate::proofs::Guarding::try_begins))]
pub(crate) fn try_node(
    program: &Program,
    depth: u32,
    body: NodeId,
    pattern: NodeId,
    handler: NodeId,
    frames: &mut Frames,
    here: &Scope,
    room: &mut Room,
) -> Result<Now, Exit>
    requires nested { Nested frames.old here.now }
    ensures rest { Goes program.now result frames.new here.now room.new (rest program.now frames.old here.now (guarded_node (evaluator program.now depth) (TryNode body pattern handler) here.now room.old)) }
    ensures nested { Stays result frames.new here.now }
{
    guard(depth, Guard::Try(pattern, handler), frames, here)?;
    Ok(Now::Begin(depth, body))
}

/// A finally begins.
#[tactic(auto, using(crate::proofs::Guarding::finally_begins))]
pub(crate) fn finally_node(
    program: &Program,
    depth: u32,
    first: NodeId,
    last: NodeId,
    frames: &mut Frames,
    here: &Scope,
    room: &mut Room,
) -> Result<Now, Exit>
    requires nested { Nested frames.old here.now }
    ensures rest { Goes program.now result frames.new here.now room.new (rest program.now frames.old here.now (guarded_node (evaluator program.now depth) (Finally first last) here.now room.old)) }
    ensures nested { Stays result frames.new here.now }
{
    guard(depth, Guard::First(last), frames, here)?;
    Ok(Now::Begin(depth, first))
}

/// A hide begins.
#[tactic(auto, using(crate::proofs::Guarding::hide_begins))]
pub(crate) fn hide_node(
    program: &Program,
    depth: u32,
    inner: NodeId,
    frames: &mut Frames,
    here: &Scope,
    room: &mut Room,
) -> Result<Now, Exit>
    requires nested { Nested frames.old here.now }
    ensures rest { Goes program.now result frames.new here.now room.new (rest program.now frames.old here.now (guarded_node (evaluator program.now depth) (Hide inner) here.now room.old)) }
    ensures nested { Stays result frames.new here.now }
{
    guard(depth, Guard::Alone, frames, here)?;
    Ok(Now::Begin(depth, inner))
}
