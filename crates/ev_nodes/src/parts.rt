//! Parts come to an end in nodes that hand on what was thrown.

ghost use Rattle.std.specs.Prelude.{◌≡◌, ◌≤◌, ◌++◌, [], IfOk, Some, drop, length, slice_get};
ghost use Rattle.ev_steps.specs.Steps.{call, choose, define_by, evaluator, last_of};
ghost use Rattle.def_kernel.specs.declared.node.Node.TheVariants.{Call, Sequence as Parts, If};
ghost use Rattle.ev_room.specs.Acts.{Extends, GivesIn, and_then, cut, give, write_slot};
ghost use Rattle.ev_room.specs.declared.scope.Scope.{Scope as Surroundings};
ghost use Rattle.ev_frames.specs.declared.frames.Part.TheVariants.{Args, Auditors, Branch, Receiver, Writes};
ghost use Rattle.ev_frames.specs.Rest.{Goes, Nested, Stays, args_of, call_on, going, parts_of, rest, settled, verb_of, yielding};

use crate::coercions::{assigned, coerced, under};
use crate::patterns::{asks, matching};
use def_kernel::Node;
use ev_base::{Memory, NodeId, Seq, SlotId, Value, Word};
use ev_frames::audits::{auditors_on, stamped};
use ev_frames::calls::calling;
use ev_frames::frames::{Frames, Part};
use ev_frames::leaves::{leaf_args, leaves};
use ev_frames::now::{Now, again, enter};
use ev_frames::patterns::{binding, binds_from};
use ev_prims::Problem;
use ev_room::Program;
use ev_room::data::problem_id;
use ev_room::exit::{Came, Exit};
use ev_room::room::Room;
use ev_room::scope::{Scope, cut};
use ev_room::slots::write_slot;
use ev_room::tree::node_at;
use ev_steps::pattern::{Early, bind_at_once, part_at};
use std::alloc::Global;

/// The parts of a sequence, and none of any other node.
#[tactic(auto, unfolding(ev_frames::specs::Rest::parts_of))]
fn parts_in(node: &Node) -> &[NodeId]
    ensures { result.now ≡ parts_of (Some node.now) }
{
    match node {
        Node::Sequence(parts) => parts.as_slice(),
        _ => &[],
    }
}

#[tactic(auto, unfolding(ev_frames::specs::Rest::parts_of))]
#[inline(always)]
fn parts_at(tree: &[Node], id: NodeId) -> &[NodeId]
    ensures { result.now ≡ parts_of (slice_get tree.now id) }
{
    match node_at(tree, id) {
        Some(node) => parts_in(node),
        None => &[],
    }
}

/// The verb of a call, and an empty text of any other node.
#[tactic(auto, unfolding(ev_frames::specs::Rest::verb_of))]
fn verb_in(alloc: Global, node: &Node) -> Result<Word, Memory>
    ensures { IfOk result (λ verb. verb ≡ verb_of (Some node.now)) }
{
    match node {
        Node::Call { verb, .. } => verb.share(),
        _ => Word::copy_of(alloc, ""),
    }
}

#[tactic(auto, unfolding(ev_frames::specs::Rest::verb_of))]
fn verb_at(alloc: Global, tree: &[Node], id: NodeId) -> Result<Word, Memory>
    ensures { IfOk result (λ verb. verb ≡ verb_of (slice_get tree.now id)) }
{
    match node_at(tree, id) {
        Some(node) => verb_in(alloc, node),
        None => Word::copy_of(alloc, ""),
    }
}

/// The arguments of a call, and none of any other node.
#[tactic(auto, unfolding(ev_frames::specs::Rest::args_of))]
fn args_in(node: &Node) -> &[NodeId]
    ensures { result.now ≡ args_of (Some node.now) }
{
    match node {
        Node::Call { args, .. } => args.as_slice(),
        _ => &[],
    }
}

#[tactic(auto, unfolding(ev_frames::specs::Rest::args_of))]
fn args_at(tree: &[Node], id: NodeId) -> &[NodeId]
    ensures { result.now ≡ args_of (slice_get tree.now id) }
{
    match node_at(tree, id) {
        Some(node) => args_in(node),
        None => &[],
    }
}

/// The value is known with which a slot is written.
#[tactic(auto, using(ev_room::proofs::Exits::ends), unfolding(ev_room::specs::Acts::opened_acts))]
fn written(slot: SlotId, value: Value, here: &Scope, room: &mut Room) -> Result<Value, Exit>
    ensures outcome { GivesIn result here.now room.new (and_then (write_slot here.now.act slot value room.old) (λ u. give (u, here.now))) }
{
    let written = write_slot(here.act, slot, value, room)?;
    Ok(written)
}

/// The ejector of a definition is known.
#[tactic(auto, using(crate::proofs::Patterning::define_on, ev_frames::proofs::Again::unmarked))]
fn defined_by(
    program: &Program,
    depth: u32,
    mark: usize,
    pattern: NodeId,
    value: NodeId,
    ejector: Value,
    frames: &mut Frames,
    here: &Scope,
    room: &mut Room,
) -> Result<Now, Exit>
    requires mark { mark ≤ length here.now.nouns }
    requires nested { Nested frames.old (cut mark here.now) }
    ensures rest { Goes program.now result frames.new here.now room.new (rest program.now frames.old here.now (define_by (evaluator program.now depth) pattern value ejector here.now room.old)) }
    ensures nested { Stays result frames.new here.now }
{
    again(depth, mark, Part::Define(pattern, ejector), frames, here)?;
    Ok(Now::Begin(depth, value))
}

/// The value of a definition is known.
#[tactic(auto, using(crate::proofs::Patterning::defined_begins, crate::proofs::Patterning::defined_pushed, crate::proofs::Patterning::defined_ends, ev_frames::proofs::Rests::nested_behind, ev_frames::proofs::Rests::gone))]
fn defined(
    program: &Program,
    depth: u32,
    pattern: NodeId,
    ejector: Value,
    value: Value,
    frames: &mut Frames,
    here: &mut Scope,
    room: &mut Room,
) -> Result<Now, Exit>
    requires nested { Nested frames.old here.old }
    ensures rest { Goes program.now result frames.new here.new room.new (rest program.now frames.old here.old (yielding value ((evaluator program.now depth).pattern pattern value ejector here.old room.old))) }
    ensures nested { Stays result frames.new here.new }
{
    let bound = value;
    let by = ejector;
    match bind_at_once(program, depth, pattern, bound, by, here, room)? {
        Early::Bound => Ok(Now::Ended(Came::Gave(value))),
        Early::Later => {
            let given = value;
            enter(depth, Part::Yields(given), frames, here)?;
            Ok(Now::Bind(depth, pattern, value, ejector))
        }
    }
}

/// A part of a sequence has a value.
#[tactic(auto, using(crate::proofs::Ending::sequence_on, crate::proofs::Ending::sequence_done, ev_frames::proofs::Again::unmarked))]
#[inline(always)]
fn sequenced(
    program: &Program,
    depth: u32,
    mark: usize,
    id: NodeId,
    begun: usize,
    value: Value,
    parts: &[NodeId],
    frames: &mut Frames,
    here: &Scope,
    room: &mut Room,
) -> Result<Now, Exit>
    requires node { parts.now ≡ parts_of (slice_get program.now id) }
    requires mark { mark ≤ length here.now.nouns }
    requires nested { Nested frames.old (cut mark here.now) }
    ensures rest { Goes program.now result frames.new here.now room.new (rest program.now frames.old here.now (last_of (evaluator program.now depth) value (drop begun parts.now) here.now room.old)) }
    ensures nested { Stays result frames.new here.now }
{
    match part_at(parts, begun) {
        None => Ok(Now::Ended(Came::Gave(value))),
        Some(part) => {
            again(depth, mark, Part::Sequence(id, begun + 1), frames, here)?;
            Ok(Now::Begin(depth, part))
        }
    }
}

/// The test of an if has a value.
#[tactic(auto, using(crate::proofs::Ending::yes_begins, crate::proofs::Ending::no_begins, crate::proofs::Ending::cut_nested, crate::proofs::Ending::cut_marked, ev_frames::proofs::Again::unmarked), unfolding(ev_steps::specs::Steps::choose, ev_room::specs::Acts::fails, ev_room::specs::Acts::fail))]
#[inline(always)]
fn chosen(
    program: &Program,
    depth: u32,
    mark: usize,
    yes: NodeId,
    no: NodeId,
    value: Value,
    frames: &mut Frames,
    here: &mut Scope,
    room: &mut Room,
) -> Result<Now, Exit>
    requires mark { mark ≤ length here.old.nouns }
    requires nested { Nested frames.old (cut mark here.old) }
    ensures rest { Goes program.now result frames.new here.new room.new (rest program.now frames.old here.old (choose (evaluator program.now depth) mark yes no value here.old room.old)) }
    ensures nested { Stays result frames.new here.new }
{
    match value {
        Value::Bool(true) => {
            again(depth, mark, Part::Branch, frames, here)?;
            Ok(Now::Begin(depth, yes))
        }
        Value::Bool(false) => {
            cut(room.alloc, mark, here);
            again(depth, mark, Part::Branch, frames, here)?;
            Ok(Now::Begin(depth, no))
        }
        _ => Err(Exit::Thrown(problem_id(Problem::NotBoolean))),
    }
}

/// The arguments of a call so far are known.
#[tactic(auto, using(crate::proofs::Ending::args_on, crate::proofs::Ending::args_done, ev_frames::proofs::Again::unmarked, ev_frames::proofs::Rests::goes_as))]
#[inline(always)]
fn call_on(
    program: &Program,
    depth: u32,
    mark: usize,
    id: NodeId,
    receiver: Value,
    verb: &Word,
    so_far: Seq<Value>,
    args: &[NodeId],
    frames: &mut Frames,
    here: &mut Scope,
    room: &mut Room,
) -> Result<Now, Exit>
    requires verb { verb.now ≡ verb_of (slice_get program.now id) }
    requires args { args.now ≡ args_of (slice_get program.now id) }
    requires mark { mark ≤ length here.old.nouns }
    requires nested { Nested frames.old (cut mark here.old) }
    ensures rest { Goes program.now result frames.new here.new room.new (rest program.now frames.old here.old (call_on program.now (evaluator program.now depth) here.old.act receiver verb.now so_far (drop (length so_far) args.now) here.old room.old)) }
    ensures nested { Stays result frames.new here.new }
{
    match part_at(args, so_far.len()) {
        None => calling(
            program,
            depth,
            receiver,
            verb,
            so_far.as_slice(),
            frames,
            here,
            room,
        ),
        Some(part) => {
            again(depth, mark, Part::Args(id, receiver, so_far), frames, here)?;
            Ok(Now::Begin(depth, part))
        }
    }
}

/// A part of a sequence has a value, and the leaves behind it are evaluated at once.
#[tactic(auto, using(ev_frames::proofs::Leafy::passes_goes, ev_frames::proofs::Rests::goes_on, ev_frames::proofs::Rests::gone, ev_frames::proofs::Again::unmarked))]
#[inline(always)]
fn sequence_on(
    program: &Program,
    depth: u32,
    mark: usize,
    id: NodeId,
    begun: usize,
    value: Value,
    parts: &[NodeId],
    frames: &mut Frames,
    here: &Scope,
    room: &mut Room,
) -> Result<Now, Exit>
    requires node { parts.now ≡ parts_of (slice_get program.now id) }
    requires mark { mark ≤ length here.now.nouns }
    requires nested { Nested frames.old (cut mark here.now) }
    ensures rest { Goes program.now result frames.new here.now room.new (rest program.now frames.old here.now (last_of (evaluator program.now depth) value (drop begun parts.now) here.now room.old)) }
    ensures nested { Stays result frames.new here.now }
{
    let reached = leaves(program, depth, begun, value, parts, here, room)?;
    sequenced(
        program, depth, mark, id, reached.0, reached.1, parts, frames, here, room,
    )
}

/// The arguments of a call so far are known, and the leaves behind them are evaluated at once.
#[tactic(auto, using(ev_frames::proofs::Leafy::gathers_goes, ev_frames::proofs::Leafy::gathers_ends, ev_frames::proofs::Rests::gone, ev_frames::proofs::Again::unmarked))]
#[inline(always)]
pub(crate) fn args_on(
    program: &Program,
    depth: u32,
    mark: usize,
    id: NodeId,
    receiver: Value,
    verb: &Word,
    so_far: Seq<Value>,
    args: &[NodeId],
    frames: &mut Frames,
    here: &mut Scope,
    room: &mut Room,
) -> Result<Now, Exit>
    requires verb { verb.now ≡ verb_of (slice_get program.now id) }
    requires args { args.now ≡ args_of (slice_get program.now id) }
    requires mark { mark ≤ length here.old.nouns }
    requires nested { Nested frames.old (cut mark here.old) }
    ensures rest { Goes program.now result frames.new here.new room.new (rest program.now frames.old here.old (call_on program.now (evaluator program.now depth) here.old.act receiver verb.now so_far (drop (length so_far) args.now) here.old room.old)) }
    ensures nested { Stays result frames.new here.new }
{
    let values = leaf_args(program, depth, so_far, args, here, room)?;
    call_on(
        program, depth, mark, id, receiver, verb, values, args, frames, here, room,
    )
}

/// The value of an assignment is known, and its slot is written.
#[tactic(auto, using(ev_frames::proofs::Again::unmarked, ev_frames::proofs::Rests::given_behind, ev_frames::proofs::Rests::ended_behind, ev_frames::proofs::Rests::nested_behind, ev_frames::proofs::Rests::goes_on, ev_frames::proofs::Rests::gone), unfolding(ev_frames::specs::Rest::going, ev_room::specs::Acts::give, ev_room::specs::Acts::fail))]
fn write_gave(
    program: &Program,
    depth: u32,
    mark: usize,
    slot: SlotId,
    value: Value,
    frames: &mut Frames,
    here: &mut Scope,
    room: &mut Room,
) -> Result<Now, Exit>
    requires mark { mark ≤ length here.old.nouns }
    requires nested { Nested frames.old (cut mark here.old) }
    ensures rest { Goes program.now result frames.new here.new room.new (rest program.now frames.old here.old (going program.now (evaluator program.now depth) here.old.act mark (Writes slot) value here.old room.old)) }
    ensures nested { Stays result frames.new here.new }
{
    let value = written(slot, value, here, room)?;
    Ok(Now::Ended(Came::Gave(value)))
}

/// The receiver of a call is known.
#[tactic(auto, using(ev_frames::proofs::Again::unmarked, ev_frames::proofs::Rests::goes_on, ev_frames::proofs::Rests::gone), unfolding(ev_frames::specs::Rest::going, ev_room::specs::Acts::give, ev_room::specs::Acts::fail))]
#[inline(always)]
fn receiver_gave(
    program: &Program,
    depth: u32,
    mark: usize,
    id: NodeId,
    value: Value,
    frames: &mut Frames,
    here: &mut Scope,
    room: &mut Room,
) -> Result<Now, Exit>
    requires mark { mark ≤ length here.old.nouns }
    requires nested { Nested frames.old (cut mark here.old) }
    ensures rest { Goes program.now result frames.new here.new room.new (rest program.now frames.old here.old (going program.now (evaluator program.now depth) here.old.act mark (Receiver id) value here.old room.old)) }
    ensures nested { Stays result frames.new here.new }
{
    let none = Seq::new(room.alloc);
    let verb = verb_at(room.alloc, program.nodes(), id)?;
    let args = args_at(program.nodes(), id);
    args_on(
        program, depth, mark, id, value, &verb, none, args, frames, here, room,
    )
}

/// One more argument of a call is known.
#[tactic(auto, using(ev_frames::proofs::Again::unmarked, ev_frames::proofs::Again::one_more, ev_frames::proofs::Rests::goes_on, ev_frames::proofs::Rests::gone), unfolding(ev_frames::specs::Rest::going, ev_room::specs::Acts::give, ev_room::specs::Acts::fail))]
fn argument_gave(
    program: &Program,
    depth: u32,
    mark: usize,
    id: NodeId,
    receiver: Value,
    so_far: Seq<Value>,
    value: Value,
    frames: &mut Frames,
    here: &mut Scope,
    room: &mut Room,
) -> Result<Now, Exit>
    requires mark { mark ≤ length here.old.nouns }
    requires nested { Nested frames.old (cut mark here.old) }
    ensures rest { Goes program.now result frames.new here.new room.new (rest program.now frames.old here.old (going program.now (evaluator program.now depth) here.old.act mark (Args id receiver so_far) value here.old room.old)) }
    ensures nested { Stays result frames.new here.new }
{
    let mut values = so_far;
    values.push(value)?;
    let verb = verb_at(room.alloc, program.nodes(), id)?;
    let args = args_at(program.nodes(), id);
    args_on(
        program, depth, mark, id, receiver, &verb, values, args, frames, here, room,
    )
}

/// One more auditor of an object expression is known.
#[tactic(auto, using(ev_frames::proofs::Again::unmarked, ev_frames::proofs::Again::one_more, ev_frames::proofs::Rests::goes_on, ev_frames::proofs::Rests::gone), unfolding(ev_frames::specs::Rest::going, ev_room::specs::Acts::give, ev_room::specs::Acts::fail))]
fn auditor_gave(
    program: &Program,
    depth: u32,
    mark: usize,
    id: NodeId,
    pattern: NodeId,
    auditors: Seq<NodeId>,
    so_far: Seq<Value>,
    value: Value,
    frames: &mut Frames,
    here: &mut Scope,
    room: &mut Room,
) -> Result<Now, Exit>
    requires mark { mark ≤ length here.old.nouns }
    requires nested { Nested frames.old (cut mark here.old) }
    ensures rest { Goes program.now result frames.new here.new room.new (rest program.now frames.old here.old (going program.now (evaluator program.now depth) here.old.act mark (Auditors id pattern auditors so_far) value here.old room.old)) }
    ensures nested { Stays result frames.new here.new }
{
    let mut values = so_far;
    values.push(value)?;
    auditors_on(
        program, depth, mark, id, pattern, auditors, values, frames, here, room,
    )
}

/// A branch of an if has a value, and its names go.
#[tactic(auto, using(crate::proofs::Ending::branch_ends, ev_frames::proofs::Again::unmarked, ev_frames::proofs::Rests::given_behind, ev_frames::proofs::Rests::ended_behind, ev_frames::proofs::Rests::nested_behind, ev_frames::proofs::Rests::goes_on, ev_frames::proofs::Rests::gone), unfolding(ev_frames::specs::Rest::going, ev_room::specs::Acts::give, ev_room::specs::Acts::fail))]
#[inline(always)]
fn branch_gave(
    program: &Program,
    depth: u32,
    mark: usize,
    value: Value,
    frames: &mut Frames,
    here: &mut Scope,
    room: &mut Room,
) -> Result<Now, Exit>
    requires mark { mark ≤ length here.old.nouns }
    requires nested { Nested frames.old (cut mark here.old) }
    ensures rest { Goes program.now result frames.new here.new room.new (rest program.now frames.old here.old (going program.now (evaluator program.now depth) here.old.act mark Branch value here.old room.old)) }
    ensures nested { Stays result frames.new here.new }
{
    cut(room.alloc, mark, here);
    Ok(Now::Ended(Came::Gave(value)))
}

/// A part of a node has a value.
#[tactic(auto, using(ev_frames::proofs::Again::unmarked, ev_frames::proofs::Again::one_more, crate::proofs::Ending::branch_ends, ev_frames::proofs::Rests::given_behind, ev_frames::proofs::Rests::ended_behind, ev_frames::proofs::Rests::nested_behind, ev_frames::proofs::Rests::goes_on, ev_frames::proofs::Rests::gone), unfolding(ev_frames::specs::Rest::going, ev_room::specs::Acts::give, ev_room::specs::Acts::fail))]
pub(crate) fn part_gave(
    program: &Program,
    depth: u32,
    mark: usize,
    part: Part,
    value: Value,
    frames: &mut Frames,
    here: &mut Scope,
    room: &mut Room,
) -> Result<Now, Exit>
    requires mark { mark ≤ length here.old.nouns }
    requires nested { Nested frames.old (cut mark here.old) }
    ensures rest { Goes program.now result frames.new here.new room.new (rest program.now frames.old here.old (going program.now (evaluator program.now depth) here.old.act mark part value here.old room.old)) }
    ensures nested { Stays result frames.new here.new }
{
    match part {
        Part::Assign(bound) => assigned(program, depth, bound, value, frames, here, room),
        Part::Writes(slot) => write_gave(program, depth, mark, slot, value, frames, here, room),
        Part::Guarded(target, specimen, ejector) => {
            let guard = room.refs.deref(value);
            under(
                program, depth, target, specimen, ejector, guard, frames, here, room,
            )
        }
        Part::Coerced(target, guard) => {
            coerced(program, &target, guard, value, frames, here, room)
        }
        Part::DefineBy(pattern, expression) => defined_by(
            program, depth, mark, pattern, expression, value, frames, here, room,
        ),
        Part::Define(pattern, ejector) => defined(
            program, depth, pattern, ejector, value, frames, here, room,
        ),
        Part::Yields(given) => Ok(Now::Ended(Came::Gave(given))),
        Part::Then(next) => Ok(Now::Begin(depth, next)),
        Part::Binds(patterns, values, ejector, place) => binds_from(
            program, depth, patterns, values, ejector, place, frames, here, room,
        ),
        Part::Asks(pattern, specimen, ejector) => asks(
            program, depth, mark, pattern, specimen, ejector, value, frames, here, room,
        ),
        Part::Binding(pattern, ejector) => {
            binding(program, depth, pattern, value, ejector, frames, here, room)
        }
        Part::Fails(id) => Err(Exit::Thrown(id)),
        Part::Matching(pattern) => matching(program, depth, pattern, value, frames, here, room),
        Part::Receiver(id) => receiver_gave(program, depth, mark, id, value, frames, here, room),
        Part::Args(id, receiver, values) => argument_gave(
            program, depth, mark, id, receiver, values, value, frames, here, room,
        ),
        Part::Auditors(id, pattern, auditors, values) => auditor_gave(
            program, depth, mark, id, pattern, auditors, values, value, frames, here, room,
        ),
        Part::Stamps(id, pattern, auditor, auditors, place, stamps) => stamped(
            program, depth, id, pattern, auditor, auditors, place, stamps, value, frames, here,
            room,
        ),
        Part::Sequence(id, begun) => {
            let parts = parts_at(program.nodes(), id);
            sequence_on(
                program, depth, mark, id, begun, value, parts, frames, here, room,
            )
        }
        Part::Test(yes, no) => {
            let answer = room.refs.deref(value);
            chosen(program, depth, mark, yes, no, answer, frames, here, room)
        }
        Part::Branch => branch_gave(program, depth, mark, value, frames, here, room),
    }
}
