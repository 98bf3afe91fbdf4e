//! Calls.

ghost use Rattle.std.specs.Prelude.{◌≡◌, ◌∷◌, [], OnOk, Some, option_map, reverse};
ghost use Rattle.def_machine.specs.Scopes.{matchers_of};
ghost use Rattle.ev_steps.specs.Steps.{again_by, call, call_at, call_made, call_object, call_value, evaluator};
ghost use Rattle.ev_room.specs.Acts.{Gives};
ghost use Rattle.ev_room.specs.declared.scope.Scope.{Scope as Surroundings};
ghost use Rattle.ev_frames.specs.Rest.{Goes, Nested, Stays, activated, bound_then, opened_method, rest, settled};
ghost use Rattle.ev_frames.specs.declared.frames.Frame.TheVariants.{Body};

use crate::answers::call_data;
use crate::audits::call_audition;
use crate::frames::{Frame, Frames};
use crate::matchers::matchers_begin;
use crate::now::{Now, given};
use crate::patterns::method_on;
use crate::performs::perform;
use def_kernel::Node;
use ev_base::{ActId, Memory, NodeId, ObjId, Value, Word};
use ev_room::Program;
use ev_room::ejector::call_ejector;
use ev_room::exit::Exit;
use ev_room::object::{Code, Object, look_code};
use ev_room::room::{Room, new_activation, tell_call};
use ev_room::scope::Scope;
use ev_room::tree::{first_method, members_of};
use ev_steps::call_resolver;
use ev_steps::pattern::bind_from;
use ev_steps::sending::NOT_NEAR;
use std::mem;

/// The scope of a call is kept while the body of a method is run in its own.
#[tactic(auto, using(crate::proofs::Calling::body_nested))]
fn enter_body(scope: Scope, frames: &mut Frames, here: &mut Scope) -> Result<(), Memory>
    requires nested { Nested frames.old here.old }
    ensures pushed { OnOk result (frames.new ≡ Body here.old ∷ frames.old) }
    ensures scope { OnOk result (here.new ≡ scope) }
    ensures nested { OnOk result (Nested frames.new here.new) }
{
    let saved = mem::replace(here, scope);
    frames.push(Frame::Body(saved))?;
    Ok(())
}

/// A method begins: its patterns are bound to the arguments, and then its body begins.
#[tactic(auto, using(crate::proofs::Patterning::method_goes, crate::proofs::Patterning::method_ends, crate::proofs::Rests::nested_behind, crate::proofs::Rests::gone))]
fn method_begins(
    program: &Program,
    depth: u32,
    patterns: &[NodeId],
    body: NodeId,
    args: &[Value],
    frames: &mut Frames,
    here: &mut Scope,
    room: &mut Room,
) -> Result<Now, Exit>
    requires nested { Nested frames.old here.old }
    ensures rest { Goes program.now result frames.new here.new room.new (rest program.now frames.old here.old (bound_then (evaluator program.now depth) patterns.now body args.now here.old room.old)) }
    ensures nested { Stays result frames.new here.new }
{
    let reached = bind_from(program, depth, patterns, args, Value::Null, 0, here, room)?;
    method_on(
        program, depth, patterns, body, args, reached, frames, here, room,
    )
}

/// A method begins, if there is one.
#[tactic(auto, unfolding(crate::specs::Rest::opened_method))]
pub(crate) fn found_begins(
    program: &Program,
    depth: u32,
    members: &[NodeId],
    verb: &Word,
    found: Option<&Node>,
    args: &[Value],
    frames: &mut Frames,
    here: &mut Scope,
    room: &mut Room,
) -> Result<Now, Exit>
    requires nested { Nested frames.old here.old }
    ensures rest { Goes program.now result frames.new here.new room.new (rest program.now frames.old here.old (opened_method (evaluator program.now depth) (matchers_of program.now members.now) verb.now (option_map (λ node. node.now) found.entry) args.now here.old room.old)) }
    ensures nested { Stays result frames.new here.new }
{
    match found {
        Some(Node::Method { patterns, body, .. }) => method_begins(
            program,
            depth,
            patterns.as_slice(),
            *body,
            args,
            frames,
            here,
            room,
        ),
        _ => matchers_begin(program, depth, members, verb, args, frames, here, room),
    }
}

/// The activation of a call on an object, held as that receiver, whose line is told.
#[tactic(auto, using(ev_room::proofs::Exits::ends), unfolding(crate::specs::Rest::activated, ev_room::specs::Acts::opened_acts))]
fn activated(
    act: ActId,
    receiver: Value,
    object: ObjId,
    verb: &Word,
    args: &[Value],
    room: &mut Room,
) -> Result<ActId, Exit>
    ensures outcome { Gives result room.new (activated act receiver object verb.now args.now room.old) }
{
    let begun = new_activation(Value::Obj(object), room)?;
    let next = begun;
    tell_call(act, receiver, verb, args, Some(next), room)?;
    Ok(begun)
}

/// A call on an object begins, in the scope of the object's captures.
#[tactic(auto, using(crate::proofs::Calling::made_begins, crate::proofs::Calling::made_ends, crate::proofs::Rests::gone))]
fn call_made(
    program: &Program,
    depth: u32,
    receiver: Value,
    object: ObjId,
    verb: &Word,
    args: &[Value],
    code: Object,
    frames: &mut Frames,
    here: &mut Scope,
    room: &mut Room,
) -> Result<Now, Exit>
    requires nested { Nested frames.old here.old }
    ensures rest { Goes program.now result frames.new here.new room.new (rest program.now frames.old here.old (settled here.old (call_made program.now (evaluator program.now depth) here.old.act receiver object verb.now args.now code room.old))) }
    ensures nested { Stays result frames.new here.new }
{
    let begun = activated(here.act, receiver, object, verb, args, room)?;
    let scope = Scope {
        act: begun,
        nouns: code.nouns.scope(room.alloc),
    };
    enter_body(scope, frames, here)?;
    let members = members_of(program.nodes(), code.node);
    let found = first_method(program.nodes(), members, verb, args.len());
    found_begins(
        program, depth, members, verb, found, args, frames, here, room,
    )
}

/// A call on what bears a number, as it is held: an object, an ejector, a resolver or an audition.
#[tactic(auto, using(crate::proofs::Calling::runs, crate::proofs::Calling::leaves, crate::proofs::Calling::resolves, crate::proofs::Calling::audits, crate::proofs::Calling::given_stays, crate::proofs::Calling::look_ends, crate::proofs::Rests::gone))]
fn call_object(
    program: &Program,
    depth: u32,
    levels: Option<u128>,
    receiver: Value,
    object: ObjId,
    verb: &Word,
    args: &[Value],
    frames: &mut Frames,
    here: &mut Scope,
    room: &mut Room,
) -> Result<Now, Exit>
    requires nested { Nested frames.old here.old }
    ensures rest { Goes program.now result frames.new here.new room.new (rest program.now frames.old here.old (settled here.old (call_object program.now (evaluator program.now depth) (again_by program.now (evaluator program.now depth) levels) here.old.act receiver object verb.now args.now room.old))) }
    ensures nested { Stays result frames.new here.new }
{
    match look_code(object, room)? {
        Code::Runs(code) => call_made(
            program, depth, receiver, object, verb, args, code, frames, here, room,
        ),
        Code::Leaves(alive) => given(call_ejector(
            here.act, receiver, object, alive, verb, args, room,
        )),
        Code::Resolves(promise) => given(call_resolver(
            here.act, receiver, promise, verb, args, room,
        )),
        Code::Audits(alive, view) => call_audition(
            program, depth, levels, receiver, alive, &view, verb, args, frames, here, room,
        ),
    }
}

/// A call on a value, as it is held and as it is followed, in which data and primitives call again so.
#[tactic(auto, using(crate::proofs::Rests::gone), unfolding(ev_steps::specs::Steps::call_value, ev_room::specs::Acts::fail, ev_room::specs::Acts::and_then))]
#[inline(always)]
fn call_value(
    program: &Program,
    depth: u32,
    levels: Option<u128>,
    held: Value,
    receiver: Value,
    verb: &Word,
    args: &[Value],
    frames: &mut Frames,
    here: &mut Scope,
    room: &mut Room,
) -> Result<Now, Exit>
    requires nested { Nested frames.old here.old }
    ensures rest { Goes program.now result frames.new here.new room.new (rest program.now frames.old here.old (settled here.old (call_value program.now (evaluator program.now depth) (again_by program.now (evaluator program.now depth) levels) here.old.act held receiver verb.now args.now room.old))) }
    ensures nested { Stays result frames.new here.new }
{
    match receiver {
        Value::Obj(object) => call_object(
            program, depth, levels, held, object, verb, args, frames, here, room,
        ),
        Value::Broken(id) => Err(Exit::Thrown(id)),
        Value::Prim(number) => {
            perform(
                program, depth, levels, number, verb, args, frames, here, room,
            )
        }
        Value::Null
        | Value::Bool(_)
        | Value::Int(_)
        | Value::Char(_)
        | Value::Text(_)
        | Value::List(_) => {
            call_data(
                program, depth, levels, held, receiver, verb, args, frames, here, room,
            )
        }
        Value::Prom(_) | Value::Far(_, _) => Err(Exit::Thrown(NOT_NEAR)),
    }
}

/// A call at so many levels of calls again, less one.
#[tactic(auto, using(crate::proofs::Native::call_deep, crate::proofs::Native::call_goes))]
#[inline(always)]
fn call_at(
    program: &Program,
    depth: u32,
    levels: u128,
    receiver: Value,
    verb: &Word,
    args: &[Value],
    frames: &mut Frames,
    here: &mut Scope,
    room: &mut Room,
) -> Result<Now, Exit>
    requires nested { Nested frames.old here.old }
    ensures rest { Goes program.now result frames.new here.new room.new (rest program.now frames.old here.old (settled here.old (call_at program.now (evaluator program.now depth) levels here.old.act receiver verb.now args.now room.old))) }
    ensures nested { Stays result frames.new here.new }
{
    if levels == 0 {
        return Err(Exit::Astray);
    }
    let held = receiver;
    let near = room.refs.deref(held);
    call_value(
        program,
        depth,
        Some(levels - 1),
        receiver,
        near,
        verb,
        args,
        frames,
        here,
        room,
    )
}

/// A call whose receiver and arguments are known.
#[tactic(auto, using(crate::proofs::Calling::call_goes))]
#[inline(always)]
pub fn calling(
    program: &Program,
    depth: u32,
    receiver: Value,
    verb: &Word,
    args: &[Value],
    frames: &mut Frames,
    here: &mut Scope,
    room: &mut Room,
) -> Result<Now, Exit>
    requires nested { Nested frames.old here.old }
    ensures rest { Goes program.now result frames.new here.new room.new (rest program.now frames.old here.old (settled here.old (call program.now (evaluator program.now depth) here.old.act receiver verb.now args.now room.old))) }
    ensures nested { Stays result frames.new here.new }
{
    let levels = u128::from(room.heap.list_count()) + 4;
    call_at(
        program, depth, levels, receiver, verb, args, frames, here, room,
    )
}

/// A call again: within so many levels, or, where a turn calls, with its levels counted anew.
#[tactic(auto, unfolding(ev_steps::specs::Steps::again_by))]
pub fn call_again(
    program: &Program,
    depth: u32,
    levels: Option<u128>,
    receiver: Value,
    verb: &Word,
    args: &[Value],
    frames: &mut Frames,
    here: &mut Scope,
    room: &mut Room,
) -> Result<Now, Exit>
    requires nested { Nested frames.old here.old }
    ensures rest { Goes program.now result frames.new here.new room.new (rest program.now frames.old here.old (settled here.old (again_by program.now (evaluator program.now depth) levels here.old.act receiver verb.now args.now room.old))) }
    ensures nested { Stays result frames.new here.new }
{
    match levels {
        None => calling(program, depth, receiver, verb, args, frames, here, room),
        Some(levels) => call_at(
            program, depth, levels, receiver, verb, args, frames, here, room,
        ),
    }
}
