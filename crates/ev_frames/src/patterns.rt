//! Patterns that are bound as they come, and the patterns of a method.

ghost use Rattle.std.specs.Prelude.{◌≡◌, IfOk, drop};
ghost use Rattle.ev_steps.specs.Steps.{bind_all, evaluator};
ghost use Rattle.ev_room.specs.declared.scope.Scope.{Scope as Surroundings};
ghost use Rattle.ev_frames.specs.Rest.{Goes, Nested, Stays, bound_as, bound_then, rest};

use crate::frames::{Frames, Part};
use crate::now::{Now, enter};
use ev_base::{Memory, NodeId, Seq, Value};
use ev_room::Program;
use ev_room::data::copied_values;
use ev_room::exit::{Came, Exit};
use ev_room::room::Room;
use ev_room::scope::Scope;
use ev_steps::pattern::{Early, bind_at_once, bind_from, part_at, value_at};
use std::alloc::Global;

/// The same nodes.
pub fn copied(alloc: Global, nodes: &[NodeId]) -> Result<Seq<NodeId>, Memory>
    ensures { IfOk result (λ copy. copy ≡ nodes.now) }
{
    Ok(Seq::of(Vec::from_slice(alloc, nodes)?))
}

/// A pattern is bound to a value: at once, or it begins.
#[tactic(auto, using(crate::proofs::Patterning::binding_begins, crate::proofs::Patterning::binding_pushed, crate::proofs::Patterning::binding_ends, crate::proofs::Rests::nested_behind, crate::proofs::Rests::gone))]
pub fn binding(
    program: &Program,
    depth: u32,
    pattern: NodeId,
    value: Value,
    ejector: Value,
    frames: &Frames,
    here: &mut Scope,
    room: &mut Room,
) -> Result<Now, Exit>
    requires nested { Nested frames.now here.old }
    ensures rest { Goes program.now result frames.now here.new room.new (rest program.now frames.now here.old (bound_as ((evaluator program.now depth).pattern pattern value ejector here.old room.old))) }
    ensures nested { Stays result frames.now here.new }
{
    let bound = value;
    let by = ejector;
    match bind_at_once(program, depth, pattern, bound, by, here, room)? {
        Early::Bound => Ok(Now::Ended(Came::Gave(Value::Null))),
        Early::Later => Ok(Now::Bind(depth, pattern, value, ejector)),
    }
}

/// Patterns and values from a place on, of which the first is not bound at once.
#[tactic(auto, using(crate::proofs::Patterning::binds_next, crate::proofs::Patterning::binds_done, crate::proofs::Patterning::binds_short))]
fn binds_on(
    program: &Program,
    depth: u32,
    patterns: Seq<NodeId>,
    values: Seq<Value>,
    ejector: Value,
    place: usize,
    frames: &mut Frames,
    here: &Scope,
    room: &mut Room,
) -> Result<Now, Exit>
    requires nested { Nested frames.old here.now }
    ensures rest { Goes program.now result frames.new here.now room.new (rest program.now frames.old here.now (bound_as (bind_all (evaluator program.now depth) (drop place patterns) (drop place values) ejector here.now room.old))) }
    ensures nested { Stays result frames.new here.now }
{
    let Some(pattern) = part_at(patterns.as_slice(), place) else {
        return Ok(Now::Ended(Came::Gave(Value::Null)));
    };
    let Some(value) = value_at(values.as_slice(), place) else {
        return Ok(Now::Ended(Came::Gave(Value::Null)));
    };
    let by = ejector;
    enter(
        depth,
        Part::Binds(patterns, values, by, place + 1),
        frames,
        here,
    )?;
    Ok(Now::Bind(depth, pattern, value, ejector))
}

/// Patterns are bound to values from a place on.
#[tactic(auto, using(crate::proofs::Patterning::binds_goes, crate::proofs::Patterning::binds_ends, crate::proofs::Rests::nested_behind, crate::proofs::Rests::gone))]
pub fn binds_from(
    program: &Program,
    depth: u32,
    patterns: Seq<NodeId>,
    values: Seq<Value>,
    ejector: Value,
    place: usize,
    frames: &mut Frames,
    here: &mut Scope,
    room: &mut Room,
) -> Result<Now, Exit>
    requires nested { Nested frames.old here.old }
    ensures rest { Goes program.now result frames.new here.new room.new (rest program.now frames.old here.old (bound_as (bind_all (evaluator program.now depth) (drop place patterns) (drop place values) ejector here.old room.old))) }
    ensures nested { Stays result frames.new here.new }
{
    let by = ejector;
    let reached = bind_from(
        program,
        depth,
        patterns.as_slice(),
        values.as_slice(),
        by,
        place,
        here,
        room,
    )?;
    binds_on(
        program, depth, patterns, values, ejector, reached, frames, here, room,
    )
}

/// The patterns of a method from a place on, and then its body.
#[tactic(auto, using(crate::proofs::Patterning::body_behind))]
fn body_behind(
    program: &Program,
    depth: u32,
    patterns: Seq<NodeId>,
    body: NodeId,
    args: Seq<Value>,
    place: usize,
    frames: &mut Frames,
    here: &Scope,
    room: &mut Room,
) -> Result<Now, Exit>
    requires nested { Nested frames.old here.now }
    ensures rest { Goes program.now result frames.new here.now room.new (rest program.now frames.old here.now (bound_then (evaluator program.now depth) (drop place patterns) body (drop place args) here.now room.old)) }
    ensures nested { Stays result frames.new here.now }
{
    enter(depth, Part::Then(body), frames, here)?;
    binds_on(
        program,
        depth,
        patterns,
        args,
        Value::Null,
        place,
        frames,
        here,
        room,
    )
}

/// The patterns of a method are bound up to a place.
#[tactic(auto, using(crate::proofs::Patterning::body_done))]
pub(crate) fn method_on(
    program: &Program,
    depth: u32,
    patterns: &[NodeId],
    body: NodeId,
    args: &[Value],
    reached: usize,
    frames: &mut Frames,
    here: &Scope,
    room: &mut Room,
) -> Result<Now, Exit>
    requires nested { Nested frames.old here.now }
    ensures rest { Goes program.now result frames.new here.now room.new (rest program.now frames.old here.now (bound_then (evaluator program.now depth) (drop reached patterns.now) body (drop reached args.now) here.now room.old)) }
    ensures nested { Stays result frames.new here.now }
{
    if reached >= patterns.len() {
        return Ok(Now::Begin(depth, body));
    }
    let patterns = copied(room.alloc, patterns)?;
    let args = copied_values(room.alloc, args)?;
    body_behind(
        program, depth, patterns, body, args, reached, frames, here, room,
    )
}
