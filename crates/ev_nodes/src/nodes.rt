//! Nodes begin.

ghost use Rattle.std.specs.Prelude.{◌≡◌, [], Some, drop, length, slice_get};
ghost use Rattle.ev_steps.specs.Steps.{call_node, define, evaluator, if_node, last_of, literal_node, match_node, noun_node, set_node, step};
ghost use Rattle.ev_base.specs.declared.values.Value.TheVariants.{Null};
ghost use Rattle.def_kernel.specs.declared.node.Node.TheVariants.{Call, Sequence as Parts};
ghost use Rattle.ev_room.specs.declared.scope.Scope.{Scope as Surroundings};
ghost use Rattle.ev_base.specs.declared.values.Value.{Value as Held};
ghost use Rattle.ev_frames.specs.Rest.{Goes, Nested, Stays, call_on, rest};

use crate::guards::{escape_node, finally_node, hide_node, try_node};
use crate::parts::args_on;
use def_kernel::{Literal, Node};
use ev_base::{NodeId, Seq, Value, Word};
use ev_frames::audits::object_node;
use ev_frames::frames::{Frames, Part};
use ev_frames::leaves::{leaf, literal_node, noun_node};
use ev_frames::now::{Now, enter};
use ev_room::Program;
use ev_room::exit::{Came, Exit};
use ev_room::room::{Room, spend};
use ev_room::scope::Scope;
use ev_room::tree::node_at;
use ev_steps::pattern::part_at;

/// A literal ends at once.
#[tactic(auto, using(ev_frames::proofs::Rests::goes_on, ev_frames::proofs::Rests::gone))]
fn literal_step(
    program: &Program,
    literal: &Literal,
    frames: &Frames,
    here: &Scope,
    room: &mut Room,
) -> Result<Now, Exit>
    requires nested { Nested frames.now here.now }
    ensures rest { Goes program.now result frames.now here.now room.new (rest program.now frames.now here.now (literal_node literal.now here.now room.old)) }
    ensures nested { Stays result frames.now here.now }
{
    let value = literal_node(literal, here, room)?;
    Ok(Now::Ended(Came::Gave(value)))
}

/// A noun ends at once.
#[tactic(auto, using(ev_frames::proofs::Rests::goes_on, ev_frames::proofs::Rests::gone))]
fn noun_step(
    program: &Program,
    noun: &Word,
    frames: &Frames,
    here: &Scope,
    room: &mut Room,
) -> Result<Now, Exit>
    requires nested { Nested frames.now here.now }
    ensures rest { Goes program.now result frames.now here.now room.new (rest program.now frames.now here.now (noun_node noun.now here.now room.old)) }
    ensures nested { Stays result frames.now here.now }
{
    let value = noun_node(noun, here, room)?;
    Ok(Now::Ended(Came::Gave(value)))
}

/// An assignment begins. What is written is what the noun stood for before its value is evaluated.
#[tactic(auto, using(crate::proofs::Begins::assign_begins))]
fn set_node(
    program: &Program,
    depth: u32,
    noun: &Word,
    value: NodeId,
    frames: &mut Frames,
    here: &Scope,
    room: &mut Room,
) -> Result<Now, Exit>
    requires { Nested frames.old here.now }
    ensures rest { Goes program.now result frames.new here.now room.new (rest program.now frames.old here.now (set_node program.now (evaluator program.now depth) noun.now value here.now room.old)) }
    ensures nested { Stays result frames.new here.now }
{
    let bound = here.nouns.found(noun);
    enter(depth, Part::Assign(bound), frames, here)?;
    Ok(Now::Begin(depth, value))
}

/// A definition begins.
#[tactic(auto, using(crate::proofs::Begins::define_begins, crate::proofs::Begins::define_exits))]
fn define(
    program: &Program,
    depth: u32,
    pattern: NodeId,
    exit: Option<NodeId>,
    value: NodeId,
    frames: &mut Frames,
    here: &Scope,
    room: &mut Room,
) -> Result<Now, Exit>
    requires { Nested frames.old here.now }
    ensures rest { Goes program.now result frames.new here.now room.new (rest program.now frames.old here.now (define (evaluator program.now depth) pattern exit value here.now room.old)) }
    ensures nested { Stays result frames.new here.now }
{
    match exit {
        Some(exit) => {
            enter(depth, Part::DefineBy(pattern, value), frames, here)?;
            Ok(Now::Begin(depth, exit))
        }
        None => {
            enter(depth, Part::Define(pattern, Value::Null), frames, here)?;
            Ok(Now::Begin(depth, value))
        }
    }
}

/// A call begins whose receiver is no leaf.
#[tactic(auto, using(crate::proofs::Begins::call_begins))]
fn call_framed(
    program: &Program,
    depth: u32,
    id: NodeId,
    receiver: NodeId,
    verb: &Word,
    args: &[NodeId],
    frames: &mut Frames,
    here: &Scope,
    room: &mut Room,
) -> Result<Now, Exit>
    requires node { slice_get program.now id ≡ Some (Call receiver verb.now args.now) }
    requires nested { Nested frames.old here.now }
    ensures rest { Goes program.now result frames.new here.now room.new (rest program.now frames.old here.now (call_node program.now (evaluator program.now depth) receiver verb.now args.now here.now room.old)) }
    ensures nested { Stays result frames.new here.now }
{
    enter(depth, Part::Receiver(id), frames, here)?;
    Ok(Now::Begin(depth, receiver))
}

/// The arguments of a call are evaluated, whose receiver was at once.
#[tactic(auto, using(ev_frames::proofs::Leafy::all_nested, ev_frames::proofs::Calling::verb_is, ev_frames::proofs::Calling::args_is))]
#[inline(always)]
fn args_begin(
    program: &Program,
    depth: u32,
    id: NodeId,
    receiver: NodeId,
    value: Value,
    verb: &Word,
    args: &[NodeId],
    frames: &mut Frames,
    here: &mut Scope,
    room: &mut Room,
) -> Result<Now, Exit>
    requires node { slice_get program.now id ≡ Some (Call receiver verb.now args.now) }
    requires nested { Nested frames.old here.old }
    ensures rest { Goes program.now result frames.new here.new room.new (rest program.now frames.old here.old (call_on program.now (evaluator program.now depth) here.old.act value verb.now [] (drop (length {A = Held} []) args.now) here.old room.old)) }
    ensures nested { Stays result frames.new here.new }
{
    let mark = here.nouns.len();
    let none = Seq::new(room.alloc);
    args_on(
        program, depth, mark, id, value, verb, none, args, frames, here, room,
    )
}

/// A call begins.
#[tactic(auto, using(ev_frames::proofs::Leafy::call_leaf, ev_frames::proofs::Leafy::call_leaf_ends, ev_frames::proofs::Rests::gone))]
#[inline(always)]
fn call_node(
    program: &Program,
    depth: u32,
    id: NodeId,
    receiver: NodeId,
    verb: &Word,
    args: &[NodeId],
    frames: &mut Frames,
    here: &mut Scope,
    room: &mut Room,
) -> Result<Now, Exit>
    requires node { slice_get program.now id ≡ Some (Call receiver verb.now args.now) }
    requires nested { Nested frames.old here.old }
    ensures rest { Goes program.now result frames.new here.new room.new (rest program.now frames.old here.old (call_node program.now (evaluator program.now depth) receiver verb.now args.now here.old room.old)) }
    ensures nested { Stays result frames.new here.new }
{
    match leaf(program, depth, receiver, here, room)? {
        Some(value) => args_begin(
            program, depth, id, receiver, value, verb, args, frames, here, room,
        ),
        None => call_framed(program, depth, id, receiver, verb, args, frames, here, room),
    }
}

/// A sequence begins.
#[tactic(auto, using(crate::proofs::Begins::sequence_begins, crate::proofs::Begins::sequence_empty))]
#[inline(always)]
fn sequence_node(
    program: &Program,
    depth: u32,
    id: NodeId,
    parts: &[NodeId],
    frames: &mut Frames,
    here: &Scope,
    room: &mut Room,
) -> Result<Now, Exit>
    requires node { slice_get program.now id ≡ Some (Parts parts.now) }
    requires nested { Nested frames.old here.now }
    ensures rest { Goes program.now result frames.new here.now room.new (rest program.now frames.old here.now (last_of (evaluator program.now depth) Null parts.now here.now room.old)) }
    ensures nested { Stays result frames.new here.now }
{
    match part_at(parts, 0) {
        None => Ok(Now::Ended(Came::Gave(Value::Null))),
        Some(first) => {
            enter(depth, Part::Sequence(id, 1), frames, here)?;
            Ok(Now::Begin(depth, first))
        }
    }
}

/// An if begins.
#[tactic(auto, using(crate::proofs::Begins::if_begins))]
#[inline(always)]
fn if_node(
    program: &Program,
    depth: u32,
    test: NodeId,
    yes: NodeId,
    no: NodeId,
    frames: &mut Frames,
    here: &Scope,
    room: &mut Room,
) -> Result<Now, Exit>
    requires nested { Nested frames.old here.now }
    ensures rest { Goes program.now result frames.new here.now room.new (rest program.now frames.old here.now (if_node (evaluator program.now depth) test yes no here.now room.old)) }
    ensures nested { Stays result frames.new here.now }
{
    enter(depth, Part::Test(yes, no), frames, here)?;
    Ok(Now::Begin(depth, test))
}

/// A match begins.
#[tactic(auto, using(crate::proofs::Begins::match_begins))]
fn match_node(
    program: &Program,
    depth: u32,
    value: NodeId,
    pattern: NodeId,
    frames: &mut Frames,
    here: &Scope,
    room: &mut Room,
) -> Result<Now, Exit>
    requires nested { Nested frames.old here.now }
    ensures rest { Goes program.now result frames.new here.now room.new (rest program.now frames.old here.now (match_node program.now (evaluator program.now depth) value pattern here.now room.old)) }
    ensures nested { Stays result frames.new here.now }
{
    enter(depth, Part::Matching(pattern), frames, here)?;
    Ok(Now::Begin(depth, value))
}

/// A node begins whose parts may be so many levels deep.
#[tactic(auto, using(ev_frames::proofs::Rests::goes_on, ev_frames::proofs::Rests::gone), unfolding(ev_steps::specs::Steps::step, ev_room::specs::Acts::fail))]
#[inline(always)]
fn step(
    program: &Program,
    depth: u32,
    id: NodeId,
    node: &Node,
    frames: &mut Frames,
    here: &mut Scope,
    room: &mut Room,
) -> Result<Now, Exit>
    requires node { slice_get program.now id ≡ Some node.now }
    requires nested { Nested frames.old here.old }
    ensures rest { Goes program.now result frames.new here.new room.new (rest program.now frames.old here.old (step program.now (evaluator program.now depth) id node.now here.old room.old)) }
    ensures nested { Stays result frames.new here.new }
{
    match node {
        Node::Lit(literal) => literal_step(program, literal, frames, here, room),
        Node::Noun(noun) => noun_step(program, noun, frames, here, room),
        Node::Set(noun, value) => { set_node(program, depth, noun, *value, frames, here, room) }
        Node::Def {
            pattern,
            exit,
            value,
        } => define(program, depth, *pattern, *exit, *value, frames, here, room),
        Node::Call {
            receiver,
            verb,
            args,
        } => call_node(
            program,
            depth,
            id,
            *receiver,
            verb,
            args.as_slice(),
            frames,
            here,
            room,
        ),
        Node::Sequence(parts) => {
            sequence_node(program, depth, id, parts.as_slice(), frames, here, room)
        }
        Node::If(test, yes, no) => { if_node(program, depth, *test, *yes, *no, frames, here, room) }
        Node::Escape {
            pattern,
            body,
            caught,
        } => escape_node(program, depth, *pattern, *body, *caught, frames, here, room),
        Node::Try {
            body,
            pattern,
            handler,
        } => try_node(
            program, depth, *body, *pattern, *handler, frames, here, room,
        ),
        Node::Finally(first, last) => {
            finally_node(program, depth, *first, *last, frames, here, room)
        }
        Node::Hide(inner) => hide_node(program, depth, *inner, frames, here, room),
        Node::MatchBind(value, pattern) => {
            match_node(program, depth, *value, *pattern, frames, here, room)
        }
        Node::Object {
            pattern,
            auditors,
            ..
        } => object_node(
            program,
            depth,
            id,
            *pattern,
            auditors.as_slice(),
            frames,
            here,
            room,
        ),
        Node::Method { .. }
        | Node::Matcher { .. }
        | Node::Final(_, _)
        | Node::Var(_, _)
        | Node::Any(_)
        | Node::ListPattern(_)
        | Node::Via(_, _) => Err(Exit::Astray),
    }
}

/// The expression at a node begins, at most so many levels deep.
#[tactic(auto, using(crate::proofs::Begins::begins_deep, crate::proofs::Begins::begins_spent, crate::proofs::Begins::begins_none, crate::proofs::Begins::begins_so, ev_frames::proofs::Rests::gone))]
#[inline(always)]
pub(crate) fn begin(
    program: &Program,
    depth: u32,
    id: NodeId,
    frames: &mut Frames,
    here: &mut Scope,
    room: &mut Room,
) -> Result<Now, Exit>
    requires nested { Nested frames.old here.old }
    ensures rest { Goes program.now result frames.new here.new room.new (rest program.now frames.old here.old ((evaluator program.now depth).expression id here.old room.old)) }
    ensures nested { Stays result frames.new here.new }
{
    if depth == 0 {
        return Err(Exit::Deep);
    }
    spend(room, 1)?;
    match node_at(program.nodes(), id) {
        None => Err(Exit::Astray),
        Some(node) => step(program, depth - 1, id, node, frames, here, room),
    }
}
