//! What primitives do.

ghost use Rattle.std.specs.Prelude.{◌≡◌};
ghost use Rattle.std.specs.Bool.{OnTrue};
ghost use Rattle.ev_heap.specs.Contents.{IsWeighable};
ghost use Rattle.ev_prims.specs.Asks.{asked_of};
ghost use Rattle.ev_prims.specs.Ranges.{range_answer};
ghost use Rattle.ev_refs.specs.Follow.{followed};
ghost use Rattle.ev_steps.specs.Steps.{again_by, compared, compared_at, evaluator, loop, pair_there, performed, replied};
ghost use Rattle.ev_room.specs.Coercion.{null_or};
ghost use Rattle.ev_room.specs.declared.scope.Scope.{Scope as Surroundings};
ghost use Rattle.ev_frames.specs.Rest.{Goes, Nested, Stays, rest, settled};

use crate::answers::replied;
use crate::audits::bears_stamp;
use crate::failings::coerces;
use crate::frames::Frames;
use crate::natives::turns_from;
use crate::now::{Now, given};
use ev_base::{PrimId, Value, Word};
use ev_heap::Heap;
use ev_prims::{Asked, Problem, Test, ask, compare, range};
use ev_room::Program;
use ev_room::coercion::null_or;
use ev_room::data::{is_there, make_list, problem_id, thrown_id};
use ev_room::exit::{Came, Exit};
use ev_room::room::Room;
use ev_room::scope::Scope;
use ev_steps::{broken, make_promise, same_ever, send_with, test_value, when_by};

/// Whether two values stand in the heap.
#[tactic(auto, unfolding(ev_steps::specs::Steps::pair_there))]
fn pair_there(heap: &Heap, first: Value, second: Value) -> bool
    ensures is { result ≡ pair_there heap.now first second }
    ensures first { OnTrue result (IsWeighable heap.now first) }
    ensures second { OnTrue result (IsWeighable heap.now second) }
{
    is_there(heap, first) && is_there(heap, second)
}

/// Whether the order of two followed values passes a test.
#[tactic(auto, using(crate::proofs::Native::compares, crate::proofs::Native::compares_not))]
fn compared_at(
    program: &Program,
    depth: u32,
    levels: Option<u128>,
    test: Test,
    first: &Value,
    second: &Value,
    frames: &mut Frames,
    here: &Scope,
    room: &mut Room,
) -> Result<Now, Exit>
    requires nested { Nested frames.old here.now }
    ensures rest { Goes program.now result frames.new here.now room.new (rest program.now frames.old here.now (settled here.now (compared_at (again_by program.now (evaluator program.now depth) levels) here.now.act test first.now second.now room.old))) }
    ensures nested { Stays result frames.new here.now }
{
    if !pair_there(&room.heap, *first, *second) {
        return Err(Exit::Astray);
    }
    let reply = compare(&room.heap, test, *first, *second);
    replied(program, depth, levels, reply, frames, here, room)
}

/// The same of two values as they are held.
#[tactic(auto, using(crate::proofs::Native::compares_held))]
fn compared(
    program: &Program,
    depth: u32,
    levels: Option<u128>,
    test: Test,
    first: Value,
    second: Value,
    frames: &mut Frames,
    here: &Scope,
    room: &mut Room,
) -> Result<Now, Exit>
    requires nested { Nested frames.old here.now }
    ensures rest { Goes program.now result frames.new here.now room.new (rest program.now frames.old here.now (settled here.now (compared (again_by program.now (evaluator program.now depth) levels) here.now.act test first second room.old))) }
    ensures nested { Stays result frames.new here.now }
{
    let one = room.refs.deref(first);
    let other = room.refs.deref(second);
    compared_at(
        program, depth, levels, test, &one, &other, frames, here, room,
    )
}

/// The integers from one to another, as these are followed.
#[tactic(auto, using(crate::proofs::Native::ranges, crate::proofs::Rests::gone))]
fn ranged(
    program: &Program,
    depth: u32,
    levels: Option<u128>,
    last: bool,
    first: Value,
    end: Value,
    frames: &mut Frames,
    here: &Scope,
    room: &mut Room,
) -> Result<Now, Exit>
    requires nested { Nested frames.old here.now }
    ensures rest { Goes program.now result frames.new here.now room.new (rest program.now frames.old here.now (settled here.now (replied (again_by program.now (evaluator program.now depth) levels) here.now.act (range_answer last (followed room.old.refs first) (followed room.old.refs end)) room.old))) }
    ensures nested { Stays result frames.new here.now }
{
    let from = room.refs.deref(first);
    let to = room.refs.deref(end);
    let reply = range(room.alloc, last, from, to)?;
    replied(program, depth, levels, reply, frames, here, room)
}

/// A loop begins, which may have as many turns as there is fuel.
#[tactic(auto, using(crate::proofs::Native::loops))]
fn loops(
    program: &Program,
    depth: u32,
    levels: Option<u128>,
    object: Value,
    frames: &mut Frames,
    here: &Scope,
    room: &mut Room,
) -> Result<Now, Exit>
    requires nested { Nested frames.old here.now }
    ensures rest { Goes program.now result frames.new here.now room.new (rest program.now frames.old here.now (settled here.now (loop (again_by program.now (evaluator program.now depth) levels) here.now.act object room.old))) }
    ensures nested { Stays result frames.new here.now }
{
    let most = u64::from(room.micro.fuel) + 1;
    turns_from(program, depth, levels, object, most, frames, here, room)
}

/// The guard that takes null as well as this one, as it is followed.
#[tactic(auto, using(crate::proofs::Native::adds_null))]
fn adds_null(
    program: &Program,
    depth: u32,
    levels: Option<u128>,
    guard: Value,
    frames: &mut Frames,
    here: &Scope,
    room: &mut Room,
) -> Result<Now, Exit>
    requires nested { Nested frames.old here.now }
    ensures rest { Goes program.now result frames.new here.now room.new (rest program.now frames.old here.now (settled here.now (replied (again_by program.now (evaluator program.now depth) levels) here.now.act (null_or (followed room.old.refs guard)) room.old))) }
    ensures nested { Stays result frames.new here.now }
{
    let near = room.refs.deref(guard);
    let reply = null_or(near);
    replied(program, depth, levels, reply, frames, here, room)
}

/// Does what is asked of a primitive, which tells no line of its own call.
#[tactic(auto, using(crate::proofs::Calling::given_goes, crate::proofs::Calling::given_stays, crate::proofs::Rests::gone), unfolding(ev_steps::specs::Steps::performed, ev_room::specs::Acts::and_then, ev_room::specs::Acts::give, ev_room::specs::Acts::fails, ev_room::specs::Acts::fail))]
pub(crate) fn perform(
    program: &Program,
    depth: u32,
    levels: Option<u128>,
    number: PrimId,
    verb: &Word,
    args: &[Value],
    frames: &mut Frames,
    here: &Scope,
    room: &mut Room,
) -> Result<Now, Exit>
    requires nested { Nested frames.old here.now }
    ensures rest { Goes program.now result frames.new here.now room.new (rest program.now frames.old here.now (settled here.now (performed (again_by program.now (evaluator program.now depth) levels) here.now.act (asked_of number verb.now args.now) args.now room.old))) }
    ensures nested { Stays result frames.new here.now }
{
    match ask(number, verb.as_str(), args) {
        Asked::MakesList => given(make_list(here.act, args, room)),
        Asked::Ranges(last, first, end) => ranged(
            program, depth, levels, last, first, end, frames, here, room,
        ),
        Asked::Same(first, second) => given(same_ever(room, &first, &second)),
        Asked::Compares(test, first, second) => compared(
            program, depth, levels, test, first, second, frames, here, room,
        ),
        Asked::Loops(object) => loops(program, depth, levels, object, frames, here, room),
        Asked::SendsTo(only, target, name, list) => given(send_with(
            only, here.act, target, name, list, room,
        )),
        Asked::CallsTo(target, name, list) => { Ok(Now::Calls(depth, levels, target, name, list)) }
        Asked::MakesPromise => given(make_promise(here.act, room)),
        Asked::Breaks(problem) => given(broken(problem, room)),
        Asked::Tells(test, value) => given(test_value(test, value, room)),
        Asked::Whens(value, reactor) => given(when_by(here.act, value, reactor, room)),
        Asked::Coerces(guard, specimen, ejector) => coerces(
            program, depth, levels, guard, specimen, ejector, frames, here, room,
        ),
        Asked::AddsNull(guard) => { adds_null(program, depth, levels, guard, frames, here, room) }
        Asked::ThrowsIt(value) => Err(Exit::Thrown(thrown_id(room.refs.deref(value)))),
        Asked::NoMethod => Err(Exit::Thrown(problem_id(Problem::NoMethod))),
        Asked::IsStamped(auditor, value) => {
            Ok(Now::Ended(Came::Gave(bears_stamp(auditor, value, room))))
        }
    }
}
