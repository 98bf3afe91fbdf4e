//! The loop.

ghost use Rattle.std.specs.Prelude.{◌≡◌, ◌∷◌, [], Err, codes, pos};
ghost use Rattle.ev_steps.specs.Steps.{again_by, called_with, evaluator, turn_value};
ghost use Rattle.ev_steps.specs.Eventual.{message_in};
ghost use Rattle.ev_refs.specs.Follow.{followed};
ghost use Rattle.ev_base.specs.declared.values.Value.TheVariants.{Int, Obj, Text};
ghost use Rattle.ev_room.specs.Acts.{Gives, GivesIn};
ghost use Rattle.ev_room.specs.declared.scope.Scope.{Scope as Surroundings};
ghost use Rattle.ev_frames.specs.Rest.{Goes, Nested, Stays, bound_as, came_to, due_of, rest, settled};
ghost use Rattle.ev_nodes.specs.Loop.{NestedOn, StepsTo, stepped};
ghost use Rattle.ev_frames.specs.declared.frames.Frame.TheVariants.{Body, Guard as GuardOf, Match as MatchOf, Part as PartOf};

use crate::ends::{back, guard_ended};
use crate::nodes::begin;
use crate::parts::part_gave;
use crate::patterns::{bind, match_resumes};
use ev_base::{ActId, NodeId, ObjId, TextId, Value, Word};
use ev_frames::calls::call_again;
use ev_frames::frames::{Frame, Frames, Guard, Part};
use ev_frames::matchers::case_resumes;
use ev_frames::messages::takes;
use ev_frames::now::Now;
use ev_room::Program;
use ev_room::bindings::Nouns;
use ev_room::call::closed;
use ev_room::exit::{Came, Exit};
use ev_room::room::Room;
use ev_room::scope::{Scope, cut};
use ev_steps::message_in;
use ev_steps::sending::BAD_MESSAGE;

/// A node that hands on what its part throws goes on.
#[tactic(auto, using(crate::proofs::Looping::part_goes, crate::proofs::Looping::part_threw, crate::proofs::Looping::part_left, crate::proofs::Looping::part_nested, crate::proofs::Looping::part_mark, crate::proofs::Looping::part_below))]
fn part_resumes(
    program: &Program,
    depth: u32,
    mark: usize,
    part: Part,
    came: Came,
    frames: &mut Frames,
    here: &mut Scope,
    room: &mut Room,
) -> Result<Now, Exit>
    requires nested { Nested (PartOf depth mark part ∷ frames.old) here.old }
    ensures rest { Goes program.now result frames.new here.new room.new (rest program.now (PartOf depth mark part ∷ frames.old) here.old (came_to came here.old room.old)) }
    ensures nested { Stays result frames.new here.new }
{
    match came {
        Came::Gave(value) => part_gave(program, depth, mark, part, value, frames, here, room),
        Came::Threw(id) => Err(Exit::Thrown(id)),
        Came::Left(by, value) => Err(Exit::Ejected(by, value)),
    }
}

/// A node goes on that leaves its scope as it was.
#[tactic(auto, using(crate::proofs::Looping::guard_goes, crate::proofs::Looping::guard_nested))]
fn guard_resumes(
    program: &Program,
    depth: u32,
    mark: usize,
    guard: Guard,
    came: Came,
    frames: &mut Frames,
    here: &mut Scope,
    room: &mut Room,
) -> Result<Now, Exit>
    requires nested { Nested (GuardOf depth mark guard ∷ frames.old) here.old }
    ensures rest { Goes program.now result frames.new here.new room.new (rest program.now (GuardOf depth mark guard ∷ frames.old) here.old (came_to came here.old room.old)) }
    ensures nested { Stays result frames.new here.new }
{
    cut(room.alloc, mark, here);
    guard_ended(program, depth, guard, came, frames, here, room)
}

/// The body of a method has come to an end.
#[tactic(auto, using(crate::proofs::Looping::body_gave, crate::proofs::Looping::body_ended, crate::proofs::Looping::body_nested, ev_frames::proofs::Rests::gone))]
fn body_resumes(
    program: &Program,
    saved: Scope,
    came: Came,
    frames: &Frames,
    here: &mut Scope,
    room: &mut Room,
) -> Result<Now, Exit>
    requires nested { Nested (Body saved ∷ frames.now) here.old }
    ensures rest { Goes program.now result frames.now here.new room.new (rest program.now (Body saved ∷ frames.now) here.old (came_to came here.old room.old)) }
    ensures nested { Stays result frames.now here.new }
{
    let act = saved.act;
    *here = saved;
    let value = closed(act, back(came), room)?;
    Ok(Now::Ended(Came::Gave(value)))
}

/// The innermost frame goes on, whose part has come to an end.
fn resume(
    program: &Program,
    frame: Frame,
    came: Came,
    frames: &mut Frames,
    here: &mut Scope,
    room: &mut Room,
) -> Result<Now, Exit>
    requires nested { Nested (frame ∷ frames.old) here.old }
    ensures rest { Goes program.now result frames.new here.new room.new (rest program.now (frame ∷ frames.old) here.old (came_to came here.old room.old)) }
    ensures nested { Stays result frames.new here.new }
{
    match frame {
        Frame::Part(depth, mark, part) => {
            part_resumes(program, depth, mark, part, came, frames, here, room)
        }
        Frame::Guard(depth, mark, guard) => {
            guard_resumes(program, depth, mark, guard, came, frames, here, room)
        }
        Frame::Match(mark, ejector, pattern) => match_resumes(
            program, mark, ejector, pattern, came, frames, here, room,
        ),
        Frame::Case(depth, mark, ejector, body, matchers, place, message) => case_resumes(
            program, depth, mark, ejector, body, matchers, place, message, came, frames, here, room,
        ),
        Frame::Body(saved) => body_resumes(program, saved, came, frames, here, room),
    }
}

/// What comes next after something that gave no value, or how all of it ended.
#[tactic(auto, unfolding(crate::specs::Loop::stepped))]
fn without(exit: Exit) -> Result<Now, Result<Value, Exit>>
    ensures { result ≡ stepped (Err exit) }
{
    match exit {
        Exit::Thrown(id) => Ok(Now::Ended(Came::Threw(id))),
        Exit::Ejected(by, value) => Ok(Now::Ended(Came::Left(by, value))),
        _ => Err(Err(exit)),
    }
}

/// What comes next, or how all of it ended.
#[tactic(auto, unfolding(crate::specs::Loop::stepped))]
fn stepped(next: Result<Now, Exit>) -> Result<Now, Result<Value, Exit>>
    ensures { result ≡ stepped next }
{
    match next {
        Ok(now) => Ok(now),
        Err(exit) => without(exit),
    }
}

/// A node begins.
#[tactic(auto, using(crate::proofs::Looping::steps, crate::proofs::Looping::nests))]
fn begun(
    program: &Program,
    depth: u32,
    id: NodeId,
    frames: &mut Frames,
    here: &mut Scope,
    room: &mut Room,
) -> Result<Now, Result<Value, Exit>>
    requires nested { Nested frames.old here.old }
    ensures rest { StepsTo program.now result frames.new here.new room.new (rest program.now frames.old here.old ((evaluator program.now depth).expression id here.old room.old)) }
    ensures nested { NestedOn result frames.new here.new }
{
    let next = begin(program, depth, id, frames, here, room);
    stepped(next)
}

/// A pattern begins.
#[tactic(auto, using(crate::proofs::Looping::steps, crate::proofs::Looping::nests))]
fn bound(
    program: &Program,
    depth: u32,
    id: NodeId,
    value: Value,
    ejector: Value,
    frames: &mut Frames,
    here: &mut Scope,
    room: &mut Room,
) -> Result<Now, Result<Value, Exit>>
    requires nested { Nested frames.old here.old }
    ensures rest { StepsTo program.now result frames.new here.new room.new (rest program.now frames.old here.old (bound_as ((evaluator program.now depth).pattern id value ejector here.old room.old))) }
    ensures nested { NestedOn result frames.new here.new }
{
    let next = bind(program, depth, id, value, ejector, frames, here, room);
    stepped(next)
}

/// `run` of a value is called with a place and the member there.
fn run_member(
    program: &Program,
    depth: u32,
    levels: Option<u128>,
    object: Value,
    place: usize,
    member: Value,
    frames: &mut Frames,
    here: &mut Scope,
    room: &mut Room,
) -> Result<Now, Exit>
    requires nested { Nested frames.old here.old }
    ensures rest { Goes program.now result frames.new here.new room.new (rest program.now frames.old here.old (settled here.old (again_by program.now (evaluator program.now depth) levels here.old.act object (codes "run") (Int (pos place) ∷ member ∷ []) room.old))) }
    ensures nested { Stays result frames.new here.new }
{
    let args = [Value::Int(place as i128), member];
    let run = Word::run();
    call_again(
        program, depth, levels, object, &run, &args, frames, here, room,
    )
}

/// A member begins.
#[tactic(auto, using(crate::proofs::Looping::steps, crate::proofs::Looping::nests))]
fn member(
    program: &Program,
    depth: u32,
    levels: Option<u128>,
    object: Value,
    place: usize,
    member: Value,
    frames: &mut Frames,
    here: &mut Scope,
    room: &mut Room,
) -> Result<Now, Result<Value, Exit>>
    requires nested { Nested frames.old here.old }
    ensures rest { StepsTo program.now result frames.new here.new room.new (rest program.now frames.old here.old (settled here.old (again_by program.now (evaluator program.now depth) levels here.old.act object (codes "run") (Int (pos place) ∷ member ∷ []) room.old))) }
    ensures nested { NestedOn result frames.new here.new }
{
    let next = run_member(
        program, depth, levels, object, place, member, frames, here, room,
    );
    stepped(next)
}

/// `run` of a value is called.
#[tactic(auto, using(crate::proofs::Looping::steps, crate::proofs::Looping::nests))]
fn turn(
    program: &Program,
    depth: u32,
    levels: Option<u128>,
    object: Value,
    frames: &mut Frames,
    here: &mut Scope,
    room: &mut Room,
) -> Result<Now, Result<Value, Exit>>
    requires nested { Nested frames.old here.old }
    ensures rest { StepsTo program.now result frames.new here.new room.new (rest program.now frames.old here.old (settled here.old (again_by program.now (evaluator program.now depth) levels here.old.act object (codes "run") [] room.old))) }
    ensures nested { NestedOn result frames.new here.new }
{
    let run = Word::run();
    let next = call_again(
        program,
        depth,
        levels,
        object,
        &run,
        &[],
        frames,
        here,
        room,
    );
    stepped(next)
}

/// `run` of a value is called with a problem.
#[tactic(auto, using(crate::proofs::Looping::steps, crate::proofs::Looping::nests))]
fn refused(
    program: &Program,
    depth: u32,
    levels: Option<u128>,
    object: Value,
    problem: TextId,
    frames: &mut Frames,
    here: &mut Scope,
    room: &mut Room,
) -> Result<Now, Result<Value, Exit>>
    requires nested { Nested frames.old here.old }
    ensures rest { StepsTo program.now result frames.new here.new room.new (rest program.now frames.old here.old (settled here.old (again_by program.now (evaluator program.now depth) levels here.old.act object (codes "run") (Text problem ∷ []) room.old))) }
    ensures nested { NestedOn result frames.new here.new }
{
    let run = Word::run();
    let next = call_again(
        program,
        depth,
        levels,
        object,
        &run,
        &[Value::Text(problem)],
        frames,
        here,
        room,
    );
    stepped(next)
}

/// A value is called with a verb and a list of arguments, as these are followed.
#[tactic(auto, using(ev_frames::proofs::Native::calls_with, ev_frames::proofs::Native::calls_bad))]
fn call_with(
    program: &Program,
    depth: u32,
    levels: Option<u128>,
    receiver: Value,
    verb: Value,
    list: Value,
    frames: &mut Frames,
    here: &mut Scope,
    room: &mut Room,
) -> Result<Now, Exit>
    requires nested { Nested frames.old here.old }
    ensures rest { Goes program.now result frames.new here.new room.new (rest program.now frames.old here.old (settled here.old (called_with (again_by program.now (evaluator program.now depth) levels) here.old.act receiver (message_in room.old.heap (followed room.old.refs verb) (followed room.old.refs list)) room.old))) }
    ensures nested { Stays result frames.new here.new }
{
    let name = room.refs.deref(verb);
    let args = room.refs.deref(list);
    match message_in(room.alloc, &room.heap, name, args)? {
        None => Err(Exit::Thrown(BAD_MESSAGE)),
        Some(request) => call_again(
            program,
            depth,
            levels,
            receiver,
            &request.verb,
            request.args.as_slice(),
            frames,
            here,
            room,
        ),
    }
}

/// `audit` of a value is called with an audition.
fn run_auditor(
    program: &Program,
    depth: u32,
    levels: Option<u128>,
    auditor: Value,
    audition: ObjId,
    frames: &mut Frames,
    here: &mut Scope,
    room: &mut Room,
) -> Result<Now, Exit>
    requires nested { Nested frames.old here.old }
    ensures rest { Goes program.now result frames.new here.new room.new (rest program.now frames.old here.old (settled here.old (again_by program.now (evaluator program.now depth) levels here.old.act auditor (codes "audit") (Obj audition ∷ []) room.old))) }
    ensures nested { Stays result frames.new here.new }
{
    let verb = Word::copy_of(room.alloc, "audit")?;
    call_again(
        program,
        depth,
        levels,
        auditor,
        &verb,
        &[Value::Obj(audition)],
        frames,
        here,
        room,
    )
}

/// An auditor begins.
#[tactic(auto, using(crate::proofs::Looping::steps, crate::proofs::Looping::nests))]
fn audited(
    program: &Program,
    depth: u32,
    levels: Option<u128>,
    auditor: Value,
    audition: ObjId,
    frames: &mut Frames,
    here: &mut Scope,
    room: &mut Room,
) -> Result<Now, Result<Value, Exit>>
    requires nested { Nested frames.old here.old }
    ensures rest { StepsTo program.now result frames.new here.new room.new (rest program.now frames.old here.old (settled here.old (again_by program.now (evaluator program.now depth) levels here.old.act auditor (codes "audit") (Obj audition ∷ []) room.old))) }
    ensures nested { NestedOn result frames.new here.new }
{
    let next = run_auditor(
        program, depth, levels, auditor, audition, frames, here, room,
    );
    stepped(next)
}

/// The same, in the loop.
#[tactic(auto, using(crate::proofs::Looping::steps, crate::proofs::Looping::nests))]
fn called(
    program: &Program,
    depth: u32,
    levels: Option<u128>,
    receiver: Value,
    verb: Value,
    list: Value,
    frames: &mut Frames,
    here: &mut Scope,
    room: &mut Room,
) -> Result<Now, Result<Value, Exit>>
    requires nested { Nested frames.old here.old }
    ensures rest { StepsTo program.now result frames.new here.new room.new (rest program.now frames.old here.old (settled here.old (called_with (again_by program.now (evaluator program.now depth) levels) here.old.act receiver (message_in room.old.heap (followed room.old.refs verb) (followed room.old.refs list)) room.old))) }
    ensures nested { NestedOn result frames.new here.new }
{
    let next = call_with(
        program, depth, levels, receiver, verb, list, frames, here, room,
    );
    stepped(next)
}

/// A part has come to an end.
#[tactic(auto, using(crate::proofs::Looping::steps, crate::proofs::Looping::nests))]
fn resumed(
    program: &Program,
    frame: Frame,
    came: Came,
    frames: &mut Frames,
    here: &mut Scope,
    room: &mut Room,
) -> Result<Now, Result<Value, Exit>>
    requires nested { Nested (frame ∷ frames.old) here.old }
    ensures rest { StepsTo program.now result frames.new here.new room.new (rest program.now (frame ∷ frames.old) here.old (came_to came here.old room.old)) }
    ensures nested { NestedOn result frames.new here.new }
{
    let next = resume(program, frame, came, frames, here, room);
    stepped(next)
}

/// A part has come to an end, maybe of all.
#[tactic(auto, using(crate::proofs::Looping::done))]
fn ended(
    program: &Program,
    came: Came,
    frames: &mut Frames,
    here: &mut Scope,
    room: &mut Room,
) -> Result<Now, Result<Value, Exit>>
    requires nested { Nested frames.old here.old }
    ensures rest { StepsTo program.now result frames.new here.new room.new (rest program.now frames.old here.old (came_to came here.old room.old)) }
    ensures nested { NestedOn result frames.new here.new }
{
    match frames.pop() {
        None => Err(back(came)),
        Some(frame) => resumed(program, frame, came, frames, here, room),
    }
}

/// One step.
fn step(
    program: &Program,
    now: Now,
    frames: &mut Frames,
    here: &mut Scope,
    room: &mut Room,
) -> Result<Now, Result<Value, Exit>>
    requires nested { Nested frames.old here.old }
    ensures rest { StepsTo program.now result frames.new here.new room.new (due_of program.now now frames.old here.old room.old) }
    ensures nested { NestedOn result frames.new here.new }
{
    match now {
        Now::Begin(depth, id) => begun(program, depth, id, frames, here, room),
        Now::Bind(depth, id, value, ejector) => bound(
            program, depth, id, value, ejector, frames, here, room,
        ),
        Now::Member(depth, levels, object, place, value) => member(
            program, depth, levels, object, place, value, frames, here, room,
        ),
        Now::Turn(depth, levels, object) => {
            turn(program, depth, levels, object, frames, here, room)
        }
        Now::Refuse(depth, levels, object, problem) => refused(
            program, depth, levels, object, problem, frames, here, room,
        ),
        Now::Calls(depth, levels, receiver, verb, list) => called(
            program, depth, levels, receiver, verb, list, frames, here, room,
        ),
        Now::Audit(depth, levels, auditor, audition) => audited(
            program, depth, levels, auditor, audition, frames, here, room,
        ),
        Now::Ended(came) => ended(program, came, frames, here, room),
    }
}

/// Does what comes next, and all that is left to do.
/// After more steps than any machine makes it ends as after want of memory.
fn run(
    program: &Program,
    first: Now,
    frames: &mut Frames,
    here: &mut Scope,
    room: &mut Room,
) -> Result<Value, Exit>
    requires nested { Nested frames.old here.old }
    ensures outcome { GivesIn result here.new room.new (due_of program.now first frames.old here.old room.old) }
{
    let mut now = first;
    for _ in 0..u64::MAX {
        match step(program, now, frames, here, room) {
            Ok(next) => now = next,
            Err(outcome) => return outcome,
        }
    }
    Err(Exit::Memory)
}

/// Evaluates the expression at a node, at most so many levels deep.
/// After more steps than any machine makes it ends as after want of memory.
#[tactic(auto, using(crate::proofs::Looping::alone_gives, crate::proofs::Looping::nested_alone))]
pub fn evaluate(
    program: &Program,
    depth: u32,
    id: NodeId,
    here: &mut Scope,
    room: &mut Room,
) -> Result<Value, Exit>
    ensures outcome { GivesIn result here.new room.new ((evaluator program.now depth).expression id here.old room.old) }
{
    let mut frames = Frames::new(room.alloc);
    run(program, Now::Begin(depth, id), &mut frames, here, room)
}

/// What a turn does with a message begins, in the loop.
#[tactic(auto, using(crate::proofs::Looping::steps, crate::proofs::Looping::nests))]
fn taken(
    program: &Program,
    depth: u32,
    target: Value,
    verb: &Word,
    args: &[Value],
    frames: &mut Frames,
    here: &mut Scope,
    room: &mut Room,
) -> Result<Now, Result<Value, Exit>>
    requires bare { here.old.nouns ≡ [] }
    requires nested { Nested frames.old here.old }
    ensures rest { StepsTo program.now result frames.new here.new room.new (rest program.now frames.old here.old (settled here.old (turn_value program.now (evaluator program.now depth) here.old.act target verb.now args.now room.old))) }
    ensures nested { NestedOn result frames.new here.new }
{
    let next = takes(program, depth, target, verb, args, frames, here, room);
    stepped(next)
}

/// Does what an activation's turn does with a message on a target, as that is followed: a method or the matchers of an object run in
/// that activation, and all else answers. No node begins below so many levels. The turn's own lines are the caller's to tell.
/// After more steps than any machine makes it ends as after want of memory.
#[tactic(auto, using(crate::proofs::Looping::turn_gives, crate::proofs::Looping::turn_gave, crate::proofs::Looping::nested_alone))]
pub fn take_message(
    program: &Program,
    depth: u32,
    act: ActId,
    target: Value,
    verb: &Word,
    args: &[Value],
    room: &mut Room,
) -> Result<Value, Exit>
    ensures outcome { Gives result room.new (turn_value program.now (evaluator program.now depth) act target verb.now args.now room.old) }
{
    let mut frames = Frames::new(room.alloc);
    let mut here = Scope {
        act,
        nouns: Nouns::new(room.alloc),
    };
    match taken(
        program,
        depth,
        target,
        verb,
        args,
        &mut frames,
        &mut here,
        room,
    ) {
        Ok(now) => run(program, now, &mut frames, &mut here, room),
        Err(outcome) => outcome,
    }
}
