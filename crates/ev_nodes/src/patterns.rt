//! Patterns begin, and matches.

ghost use Rattle.std.specs.Prelude.{◌≡◌, ◌≤◌, ◌==◌, ◌∷◌, [], List, OnOk, length, slice_get};
ghost use Rattle.ev_steps.specs.Steps.{bind_asked, bind_guarded, not_matched, bind_items, bind_list, bind_step, bind_via, call, evaluator, failed, match_on};
ghost use Rattle.ev_steps.specs.declared.target.Target.TheVariants as target;
ghost use Rattle.ev_prims.specs.Answers.{members_at};
ghost use Rattle.ev_room.specs.Acts.{Extends, and_then, cut, give};
ghost use Rattle.ev_room.specs.declared.scope.Scope.{Scope as Surroundings};
ghost use Rattle.ev_base.specs.declared.values.Value.{Value as Held};
ghost use Rattle.ev_frames.specs.Rest.{Goes, Nested, Stays, bound_as, came_to, rest};
ghost use Rattle.ev_frames.specs.declared.frames.Frame.TheVariants.{Match as MatchOf, Part as PartOf};

use crate::coercions::{failing, guarded};
use def_kernel::Node;
use ev_base::{Memory, NodeId, ObjId, Seq, TextId, Value, Word};
use ev_frames::calls::calling;
use ev_frames::frames::{Frame, Frames, Part};
use ev_frames::now::{Now, again, enter};
use ev_frames::patterns::{binding, binds_from, copied};
use ev_room::Program;
use ev_room::data::{copied_values, members_of};
use ev_room::ejector::{is_same, kill, new_ejector};
use ev_room::exit::{Came, Exit};
use ev_room::room::{Room, spend};
use ev_room::scope::{Scope, cut};
use ev_room::tree::node_at;
use ev_steps::handing::handed;
use ev_steps::matches::not_matched;
use ev_steps::target::Target;

/// The problem of a specimen that is no list of so many members.
const NOT_A_LIST: TextId = TextId(16);

/// A list pattern at a list of these members.
#[tactic(auto, using(crate::proofs::Patterning::list_binds, crate::proofs::Patterning::list_fails))]
fn bind_members(
    program: &Program,
    depth: u32,
    patterns: &[NodeId],
    members: Seq<Value>,
    ejector: Value,
    frames: &mut Frames,
    here: &mut Scope,
    room: &mut Room,
) -> Result<Now, Exit>
    requires nested { Nested frames.old here.old }
    ensures rest { Goes program.now result frames.new here.new room.new (rest program.now frames.old here.old (bound_as (bind_list program.now (evaluator program.now depth) patterns.now ejector here.old members (length members == length patterns.now) room.old))) }
    ensures nested { Stays result frames.new here.new }
{
    if members.len() != patterns.len() {
        return failing(program, depth, ejector, NOT_A_LIST, frames, here, room);
    }
    let patterns = copied(room.alloc, patterns)?;
    binds_from(
        program, depth, patterns, members, ejector, 0, frames, here, room,
    )
}

/// A list pattern at a value.
#[tactic(auto, unfolding(ev_steps::specs::Steps::bind_items))]
fn bind_items(
    program: &Program,
    depth: u32,
    patterns: &[NodeId],
    value: Value,
    ejector: Value,
    frames: &mut Frames,
    here: &mut Scope,
    room: &mut Room,
) -> Result<Now, Exit>
    requires nested { Nested frames.old here.old }
    ensures rest { Goes program.now result frames.new here.new room.new (rest program.now frames.old here.old (bound_as (bind_items program.now (evaluator program.now depth) patterns.now ejector here.old value room.old))) }
    ensures nested { Stays result frames.new here.new }
{
    match value {
        Value::List(list) => {
            let members = copied_values(room.alloc, members_of(&room.heap, list))?;
            bind_members(
                program, depth, patterns, members, ejector, frames, here, room,
            )
        }
        Value::Null
        | Value::Bool(_)
        | Value::Int(_)
        | Value::Char(_)
        | Value::Text(_)
        | Value::Broken(_)
        | Value::Prim(_)
        | Value::Obj(_)
        | Value::Prom(_)
        | Value::Far(_, _) => failing(program, depth, ejector, NOT_A_LIST, frames, here, room),
    }
}

/// What a value gives for another is evaluated, and bound.
#[tactic(auto, using(crate::proofs::Patterning::asks_on))]
pub(crate) fn asks(
    program: &Program,
    depth: u32,
    mark: usize,
    pattern: NodeId,
    specimen: Value,
    ejector: Value,
    asked: Value,
    frames: &mut Frames,
    here: &mut Scope,
    room: &mut Room,
) -> Result<Now, Exit>
    requires mark { mark ≤ length here.old.nouns }
    requires nested { Nested frames.old (cut mark here.old) }
    ensures rest { Goes program.now result frames.new here.new room.new (rest program.now frames.old here.old (bound_as (bind_via program.now (evaluator program.now depth) here.old.act pattern specimen ejector asked here.old room.old))) }
    ensures nested { Stays result frames.new here.new }
{
    let asked_by = ejector;
    let by = handed(room, asked_by);
    again(depth, mark, Part::Binding(pattern, ejector), frames, here)?;
    let run = Word::run();
    calling(
        program,
        depth,
        asked,
        &run,
        &[specimen, by],
        frames,
        here,
        room,
    )
}

/// A pattern that asks another value begins.
#[tactic(auto, using(crate::proofs::Patterning::via_begins))]
fn via_step(
    program: &Program,
    depth: u32,
    expression: NodeId,
    pattern: NodeId,
    value: Value,
    ejector: Value,
    frames: &mut Frames,
    here: &Scope,
    room: &mut Room,
) -> Result<Now, Exit>
    requires nested { Nested frames.old here.now }
    ensures rest { Goes program.now result frames.new here.now room.new (rest program.now frames.old here.now (bound_as (bind_asked program.now (evaluator program.now depth) expression pattern value ejector here.now room.old))) }
    ensures nested { Stays result frames.new here.now }
{
    enter(depth, Part::Asks(pattern, value, ejector), frames, here)?;
    Ok(Now::Begin(depth, expression))
}

/// A final pattern begins.
#[tactic(auto, using(ev_frames::proofs::Rests::gone))]
fn final_step(
    program: &Program,
    depth: u32,
    noun: &Word,
    guard: Option<NodeId>,
    value: Value,
    ejector: Value,
    frames: &mut Frames,
    here: &mut Scope,
    room: &mut Room,
) -> Result<Now, Exit>
    requires nested { Nested frames.old here.old }
    ensures rest { Goes program.now result frames.new here.new room.new (rest program.now frames.old here.old (bound_as (bind_guarded program.now (evaluator program.now depth) (target.Final noun.now) guard value ejector here.old room.old))) }
    ensures nested { Stays result frames.new here.new }
{
    let target = Target::Final(noun.share()?);
    guarded(
        program, depth, target, guard, value, ejector, frames, here, room,
    )
}

/// A variable pattern begins.
#[tactic(auto, using(ev_frames::proofs::Rests::gone))]
fn var_step(
    program: &Program,
    depth: u32,
    noun: &Word,
    guard: Option<NodeId>,
    value: Value,
    ejector: Value,
    frames: &mut Frames,
    here: &mut Scope,
    room: &mut Room,
) -> Result<Now, Exit>
    requires nested { Nested frames.old here.old }
    ensures rest { Goes program.now result frames.new here.new room.new (rest program.now frames.old here.old (bound_as (bind_guarded program.now (evaluator program.now depth) (target.Var noun.now) guard value ejector here.old room.old))) }
    ensures nested { Stays result frames.new here.new }
{
    let target = Target::Var(noun.share()?);
    guarded(
        program, depth, target, guard, value, ejector, frames, here, room,
    )
}

/// A pattern begins whose parts may be so many levels deep.
#[tactic(auto, using(ev_frames::proofs::Rests::gone, crate::proofs::Patterning::ends_so), unfolding(ev_steps::specs::Steps::bind_step))]
fn bind_step(
    program: &Program,
    depth: u32,
    node: &Node,
    value: Value,
    ejector: Value,
    frames: &mut Frames,
    here: &mut Scope,
    room: &mut Room,
) -> Result<Now, Exit>
    requires nested { Nested frames.old here.old }
    ensures rest { Goes program.now result frames.new here.new room.new (rest program.now frames.old here.old (bound_as (bind_step program.now (evaluator program.now depth) node.now value ejector here.old room.old))) }
    ensures nested { Stays result frames.new here.new }
{
    match node {
        Node::Final(noun, guard) => final_step(
            program, depth, noun, *guard, value, ejector, frames, here, room,
        ),
        Node::Var(noun, guard) => var_step(
            program, depth, noun, *guard, value, ejector, frames, here, room,
        ),
        Node::Any(guard) => guarded(
            program,
            depth,
            Target::Nothing,
            *guard,
            value,
            ejector,
            frames,
            here,
            room,
        ),
        Node::ListPattern(patterns) => {
            let list = room.refs.deref(value);
            bind_items(
                program,
                depth,
                patterns.as_slice(),
                list,
                ejector,
                frames,
                here,
                room,
            )
        }
        Node::Via(expression, pattern) => via_step(
            program,
            depth,
            *expression,
            *pattern,
            value,
            ejector,
            frames,
            here,
            room,
        ),
        Node::Lit(_)
        | Node::Noun(_)
        | Node::Set(_, _)
        | Node::Def { .. }
        | Node::Call { .. }
        | Node::Sequence(_)
        | Node::If(_, _, _)
        | Node::Escape { .. }
        | Node::Try { .. }
        | Node::Finally(_, _)
        | Node::Hide(_)
        | Node::MatchBind(_, _)
        | Node::Object { .. }
        | Node::Method { .. }
        | Node::Matcher { .. } => Err(Exit::Astray),
    }
}

/// The pattern at a node begins, at most so many levels deep.
#[tactic(auto, using(crate::proofs::Patterning::begins_deep, crate::proofs::Patterning::begins_spent, crate::proofs::Patterning::begins_none, crate::proofs::Patterning::begins_so, ev_frames::proofs::Rests::gone))]
pub(crate) fn bind(
    program: &Program,
    depth: u32,
    id: NodeId,
    value: Value,
    ejector: Value,
    frames: &mut Frames,
    here: &mut Scope,
    room: &mut Room,
) -> Result<Now, Exit>
    requires nested { Nested frames.old here.old }
    ensures rest { Goes program.now result frames.new here.new room.new (rest program.now frames.old here.old (bound_as ((evaluator program.now depth).pattern id value ejector here.old room.old))) }
    ensures nested { Stays result frames.new here.new }
{
    if depth == 0 {
        return Err(Exit::Deep);
    }
    spend(room, 1)?;
    match node_at(program.nodes(), id) {
        None => Err(Exit::Astray),
        Some(node) => bind_step(program, depth - 1, node, value, ejector, frames, here, room),
    }
}

/// A match has begun, whose pattern is to be bound.
#[tactic(auto, using(ev_frames::proofs::Rests::match_nested))]
fn enter_match(
    ejector: ObjId,
    pattern: NodeId,
    frames: &mut Frames,
    here: &Scope,
) -> Result<(), Memory>
    requires { Nested frames.old here.now }
    ensures pushed { OnOk result (frames.new ≡ MatchOf (length here.now.nouns) ejector pattern ∷ frames.old) }
    ensures nested { OnOk result (Nested frames.new here.now) }
{
    frames.push(Frame::Match(here.nouns.len(), ejector, pattern))
}

/// The value of a match is known.
#[tactic(auto, using(crate::proofs::Patterning::match_goes, crate::proofs::Patterning::ejector_ends, ev_frames::proofs::Rests::gone))]
pub(crate) fn matching(
    program: &Program,
    depth: u32,
    pattern: NodeId,
    value: Value,
    frames: &mut Frames,
    here: &mut Scope,
    room: &mut Room,
) -> Result<Now, Exit>
    requires nested { Nested frames.old here.old }
    ensures rest { Goes program.now result frames.new here.new room.new (rest program.now frames.old here.old (match_on program.now (evaluator program.now depth) here.old.act pattern value here.old room.old)) }
    ensures nested { Stays result frames.new here.new }
{
    let ejector = new_ejector(here.act, room)?;
    enter_match(ejector, pattern, frames, here)?;
    binding(
        program,
        depth,
        pattern,
        value,
        Value::Obj(ejector),
        frames,
        here,
        room,
    )
}

/// A match has failed: its scope is cut back, and its names are bound anew.
#[tactic(auto, using(crate::proofs::Patterning::match_own, crate::proofs::Patterning::match_own_ends, crate::proofs::Patterning::match_after, crate::proofs::Patterning::match_gone))]
fn match_failed(
    program: &Program,
    mark: usize,
    pattern: NodeId,
    value: Value,
    frames: &Frames,
    here: &mut Scope,
    room: &mut Room,
) -> Result<Now, Exit>
    requires mark { mark ≤ length here.old.nouns }
    requires nested { Nested frames.now (cut mark here.old) }
    ensures rest { Goes program.now result frames.now here.new room.new (rest program.now frames.now (cut mark here.old) (not_matched program.now pattern (cut mark here.old) value room.old)) }
    ensures nested { Stays result frames.now here.new }
{
    cut(room.alloc, mark, here);
    let value = not_matched(program, pattern, value, here, room)?;
    Ok(Now::Ended(Came::Gave(value)))
}

/// The pattern of a match has come to an end. However it did, the ejector is dead after it.
#[tactic(auto, using(crate::proofs::Patterning::match_gave, crate::proofs::Patterning::match_threw, crate::proofs::Patterning::match_other, crate::proofs::Patterning::match_fails, crate::proofs::Patterning::match_mark, crate::proofs::Patterning::match_below, ev_frames::proofs::Again::unmarked))]
pub(crate) fn match_resumes(
    program: &Program,
    mark: usize,
    ejector: ObjId,
    pattern: NodeId,
    came: Came,
    frames: &Frames,
    here: &mut Scope,
    room: &mut Room,
) -> Result<Now, Exit>
    requires nested { Nested (MatchOf mark ejector pattern ∷ frames.now) here.old }
    ensures rest { Goes program.now result frames.now here.new room.new (rest program.now (MatchOf mark ejector pattern ∷ frames.now) here.old (came_to came here.old room.old)) }
    ensures nested { Stays result frames.now here.new }
{
    kill(ejector, room);
    match came {
        Came::Gave(_) => Ok(Now::Ended(Came::Gave(Value::Bool(true)))),
        Came::Threw(id) => Ok(Now::Ended(Came::Threw(id))),
        Came::Left(by, value) => {
            let own = is_same(by, ejector);
            if own {
                match_failed(program, mark, pattern, value, frames, here, room)
            } else {
                Ok(Now::Ended(Came::Left(by, value)))
            }
        }
    }
}
