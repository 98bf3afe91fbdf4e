//! Auditors are asked, objects come to be with their stamps, and auditions answer.

ghost use Rattle.std.specs.Prelude.{◌≡◌, ◌≤◌, [], Some, drop, length, slice_get};
ghost use Rattle.ev_audit.specs.Asks.{asking};
ghost use Rattle.ev_base.specs.declared.values.Value.TheVariants.{Bool};
ghost use Rattle.ev_refs.specs.Follow.{followed};
ghost use Rattle.ev_steps.specs.Steps.{again_by, audit, audited, audition_answer, audition_live, call, call_audition, dead_problem, evaluator, is_true, make_object, object_on, verdict, with_stamp};
ghost use Rattle.ev_room.specs.Acts.{cut, is_stamped, object_at};
ghost use Rattle.ev_room.specs.declared.scope.Scope.{Scope as Surroundings};
ghost use Rattle.ev_frames.specs.Rest.{Goes, Nested, Stays, came_back, rest, settled};

use crate::frames::{Frames, Guard, Part};
use crate::leaves::leaf_args;
use crate::natives::member_at;
use crate::now::{Now, again, enter, given, guard};
use crate::patterns::copied;
use ev_audit::{AuditView, AuditionAsk, audition_ask};
use ev_base::{NodeId, ObjId, Seq, TextId, Value, Word};
use ev_prims::Problem;
use ev_room::Program;
use ev_room::audition::{
    DEAD_AUDITION, NOT_AN_AUDITOR, guard_asked, is_stamped, new_audition, prim_verdict, view_at,
};
use ev_room::data::problem_id;
use ev_room::ejector::kill;
use ev_room::exit::{Came, Exit};
use ev_room::form::object_form;
use ev_room::object::object_at;
use ev_room::room::{Room, tell_call};
use ev_room::scope::Scope;
use ev_steps::pattern::part_at;

/// Whether an auditor's answer, as it is followed, approves: only true does.
fn is_true(value: Value) -> bool
    ensures { result ≡ is_true value }
{
    match value {
        Value::Bool(answer) => answer,
        _ => false,
    }
}

/// Whether a value bears the stamp of an auditor, as both are followed.
pub(crate) fn bears_stamp(auditor: Value, value: Value, room: &Room) -> Value
    ensures { result ≡ Bool (is_stamped room.now.heap (followed room.now.refs auditor) (followed room.now.refs value)) }
{
    let by = room.refs.deref(auditor);
    let near = room.refs.deref(value);
    Value::Bool(is_stamped(&room.heap, by, near))
}

// ---- verdicts

/// An object is asked, with an audition of its own.
#[tactic(auto, using(crate::proofs::Auditing::audit_begins, crate::proofs::Auditing::audit_ends, crate::proofs::Rests::gone))]
fn audit(
    program: &Program,
    depth: u32,
    levels: Option<u128>,
    view: &AuditView,
    auditor: Value,
    frames: &mut Frames,
    here: &Scope,
    room: &mut Room,
) -> Result<Now, Exit>
    requires nested { Nested frames.old here.now }
    ensures rest { Goes program.now result frames.new here.now room.new (rest program.now frames.old here.now (settled here.now (audit (again_by program.now (evaluator program.now depth) levels) here.now.act view.now auditor room.old))) }
    ensures nested { Stays result frames.new here.now }
{
    let audition = new_audition(here.act, view, room)?;
    let own = audition;
    guard(depth, Guard::Audit(own), frames, here)?;
    Ok(Now::Audit(depth, levels, auditor, audition))
}

/// The verdict of an auditor, as it is held and as it is followed, or it begins.
#[tactic(auto, using(crate::proofs::Auditing::prim_goes, crate::proofs::Calling::given_stays, crate::proofs::Rests::gone), unfolding(ev_steps::specs::Steps::verdict, ev_room::specs::Acts::and_then, ev_room::specs::Acts::fail))]
fn verdict(
    program: &Program,
    depth: u32,
    levels: Option<u128>,
    view: &AuditView,
    auditor: Value,
    near: Value,
    frames: &mut Frames,
    here: &Scope,
    room: &mut Room,
) -> Result<Now, Exit>
    requires nested { Nested frames.old here.now }
    ensures rest { Goes program.now result frames.new here.now room.new (rest program.now frames.old here.now (settled here.now (verdict (again_by program.now (evaluator program.now depth) levels) here.now.act view.now auditor near room.old))) }
    ensures nested { Stays result frames.new here.now }
{
    match near {
        Value::Prim(number) => given(prim_verdict(number, view)),
        Value::Obj(_) => audit(program, depth, levels, view, auditor, frames, here, room),
        _ => Err(Exit::Thrown(NOT_AN_AUDITOR)),
    }
}

/// The call of an auditor has come to an end. However it did, the audition is dead after it.
#[tactic(auto, using(crate::proofs::Auditing::audit_gave, crate::proofs::Auditing::audit_threw, crate::proofs::Auditing::audit_left, crate::proofs::Rests::gone))]
pub fn audit_ended(
    program: &Program,
    audition: ObjId,
    came: Came,
    frames: &Frames,
    here: &Scope,
    room: &mut Room,
) -> Result<Now, Exit>
    requires nested { Nested frames.now here.now }
    ensures rest { Goes program.now result frames.now here.now room.new (rest program.now frames.now here.now (settled here.now (audited audition (came_back came, room.old)))) }
    ensures nested { Stays result frames.now here.now }
{
    kill(audition, room);
    match came {
        Came::Gave(value) => {
            let near = room.refs.deref(value);
            Ok(Now::Ended(Came::Gave(Value::Bool(is_true(near)))))
        }
        Came::Threw(id) => Err(Exit::Thrown(id)),
        Came::Left(by, value) => Err(Exit::Ejected(by, value)),
    }
}

// ---- objects

/// The object comes to be, with these stamps.
#[tactic(auto, using(crate::proofs::Rests::given_behind, crate::proofs::Rests::ended_behind, crate::proofs::Rests::nested_behind, crate::proofs::Rests::gone))]
fn made(
    program: &Program,
    id: NodeId,
    pattern: NodeId,
    stamps: &[Value],
    frames: &Frames,
    here: &mut Scope,
    room: &mut Room,
) -> Result<Now, Exit>
    requires nested { Nested frames.now here.old }
    ensures rest { Goes program.now result frames.now here.new room.new (rest program.now frames.now here.old (object_at program.now id pattern stamps.now here.old room.old)) }
    ensures nested { Stays result frames.now here.new }
{
    let value = object_at(program, id, pattern, stamps, here, room)?;
    Ok(Now::Ended(Came::Gave(value)))
}

/// The auditor at a place is asked.
#[tactic(auto, using(crate::proofs::Auditing::asks_next, crate::proofs::Rests::gone))]
fn asked(
    program: &Program,
    depth: u32,
    id: NodeId,
    pattern: NodeId,
    auditor: Value,
    auditors: Seq<Value>,
    place: usize,
    stamps: Seq<Value>,
    frames: &mut Frames,
    here: &Scope,
    room: &mut Room,
) -> Result<Now, Exit>
    requires at { slice_get auditors place ≡ Some auditor }
    requires nested { Nested frames.old here.now }
    ensures rest { Goes program.now result frames.new here.now room.new (rest program.now frames.old here.now (make_object program.now (call program.now (evaluator program.now depth)) id pattern stamps (drop place auditors) here.now room.old)) }
    ensures nested { Stays result frames.new here.now }
{
    let view = view_at(room.alloc, program, id, pattern, here)?;
    let held = auditor;
    let near = room.refs.deref(held);
    let stamp = near;
    let next = place + 1;
    enter(
        depth,
        Part::Stamps(id, pattern, stamp, auditors, next, stamps),
        frames,
        here,
    )?;
    verdict(
        program, depth, None, &view, auditor, near, frames, here, room,
    )
}

/// The auditors from a place on are asked, and then the object comes to be.
#[tactic(auto, using(crate::proofs::Auditing::asked_all, crate::proofs::Rests::gone))]
pub(crate) fn ask_from(
    program: &Program,
    depth: u32,
    id: NodeId,
    pattern: NodeId,
    auditors: Seq<Value>,
    place: usize,
    stamps: Seq<Value>,
    frames: &mut Frames,
    here: &mut Scope,
    room: &mut Room,
) -> Result<Now, Exit>
    requires nested { Nested frames.old here.old }
    ensures rest { Goes program.now result frames.new here.new room.new (rest program.now frames.old here.old (make_object program.now (call program.now (evaluator program.now depth)) id pattern stamps (drop place auditors) here.old room.old)) }
    ensures nested { Stays result frames.new here.new }
{
    match member_at(auditors.as_slice(), place) {
        None => made(program, id, pattern, stamps.as_slice(), frames, here, room),
        Some(auditor) => asked(
            program, depth, id, pattern, auditor, auditors, place, stamps, frames, here, room,
        ),
    }
}

/// An auditor has given its verdict.
#[tactic(auto, using(crate::proofs::Auditing::stamps_more, crate::proofs::Auditing::stamps_same, crate::proofs::Rests::gone))]
pub fn stamped(
    program: &Program,
    depth: u32,
    id: NodeId,
    pattern: NodeId,
    auditor: Value,
    auditors: Seq<Value>,
    place: usize,
    stamps: Seq<Value>,
    answer: Value,
    frames: &mut Frames,
    here: &mut Scope,
    room: &mut Room,
) -> Result<Now, Exit>
    requires nested { Nested frames.old here.old }
    ensures rest { Goes program.now result frames.new here.new room.new (rest program.now frames.old here.old (make_object program.now (call program.now (evaluator program.now depth)) id pattern (with_stamp (is_true answer) auditor stamps) (drop place auditors) here.old room.old)) }
    ensures nested { Stays result frames.new here.new }
{
    let approves = is_true(answer);
    if approves {
        let mut more = stamps;
        more.push(auditor)?;
        ask_from(
            program, depth, id, pattern, auditors, place, more, frames, here, room,
        )
    } else {
        ask_from(
            program, depth, id, pattern, auditors, place, stamps, frames, here, room,
        )
    }
}

/// The auditors of an object expression so far are known.
#[tactic(auto, using(crate::proofs::Auditing::auditors_next, crate::proofs::Auditing::auditors_done, crate::proofs::Again::unmarked))]
fn object_on(
    program: &Program,
    depth: u32,
    mark: usize,
    id: NodeId,
    pattern: NodeId,
    auditors: Seq<NodeId>,
    so_far: Seq<Value>,
    frames: &mut Frames,
    here: &mut Scope,
    room: &mut Room,
) -> Result<Now, Exit>
    requires mark { mark ≤ length here.old.nouns }
    requires nested { Nested frames.old (cut mark here.old) }
    ensures rest { Goes program.now result frames.new here.new room.new (rest program.now frames.old here.old (object_on program.now (evaluator program.now depth) id pattern so_far (drop (length so_far) auditors) here.old room.old)) }
    ensures nested { Stays result frames.new here.new }
{
    match part_at(auditors.as_slice(), so_far.len()) {
        None => {
            let none = Seq::new(room.alloc);
            ask_from(
                program, depth, id, pattern, so_far, 0, none, frames, here, room,
            )
        }
        Some(part) => {
            again(
                depth,
                mark,
                Part::Auditors(id, pattern, auditors, so_far),
                frames,
                here,
            )?;
            Ok(Now::Begin(depth, part))
        }
    }
}

/// The auditors of an object expression so far are known, and the leaves behind them are evaluated at once.
#[tactic(auto, using(crate::proofs::Auditing::auditors_pass, crate::proofs::Auditing::auditors_end, crate::proofs::Rests::gone, crate::proofs::Again::unmarked))]
pub fn auditors_on(
    program: &Program,
    depth: u32,
    mark: usize,
    id: NodeId,
    pattern: NodeId,
    auditors: Seq<NodeId>,
    so_far: Seq<Value>,
    frames: &mut Frames,
    here: &mut Scope,
    room: &mut Room,
) -> Result<Now, Exit>
    requires mark { mark ≤ length here.old.nouns }
    requires nested { Nested frames.old (cut mark here.old) }
    ensures rest { Goes program.now result frames.new here.new room.new (rest program.now frames.old here.old (object_on program.now (evaluator program.now depth) id pattern so_far (drop (length so_far) auditors) here.old room.old)) }
    ensures nested { Stays result frames.new here.new }
{
    let values = leaf_args(program, depth, so_far, auditors.as_slice(), here, room)?;
    object_on(
        program, depth, mark, id, pattern, auditors, values, frames, here, room,
    )
}

/// An object expression begins.
#[tactic(auto, using(crate::proofs::Leafy::all_nested, crate::proofs::Auditing::auditors_first, crate::proofs::Rests::gone))]
pub fn object_node(
    program: &Program,
    depth: u32,
    id: NodeId,
    pattern: NodeId,
    auditors: &[NodeId],
    frames: &mut Frames,
    here: &mut Scope,
    room: &mut Room,
) -> Result<Now, Exit>
    requires nested { Nested frames.old here.old }
    ensures rest { Goes program.now result frames.new here.new room.new (rest program.now frames.old here.old (object_on program.now (evaluator program.now depth) id pattern [] auditors.now here.old room.old)) }
    ensures nested { Stays result frames.new here.new }
{
    let mark = here.nouns.len();
    let none = Seq::new(room.alloc);
    let auditors = copied(room.alloc, auditors)?;
    auditors_on(
        program, depth, mark, id, pattern, auditors, none, frames, here, room,
    )
}

// ---- auditions

/// What a dead audition throws: its verb and the number of its arguments are tested first.
#[tactic(auto, unfolding(ev_steps::specs::Steps::dead_problem))]
fn dead_problem(ask: AuditionAsk) -> TextId
    ensures { result ≡ dead_problem ask }
{
    match ask {
        AuditionAsk::NoMethod => problem_id(Problem::NoMethod),
        _ => DEAD_AUDITION,
    }
}

/// What an audition answers that is alive.
#[tactic(auto, using(crate::proofs::Calling::given_goes, crate::proofs::Calling::given_stays, crate::proofs::Auditing::guard_goes, crate::proofs::Auditing::verdict_goes, crate::proofs::Rests::gone), unfolding(ev_steps::specs::Steps::audition_live, ev_room::specs::Acts::and_then, ev_room::specs::Acts::fails, ev_room::specs::Acts::fail))]
fn audition_live(
    program: &Program,
    depth: u32,
    levels: Option<u128>,
    view: &AuditView,
    ask: AuditionAsk,
    frames: &mut Frames,
    here: &Scope,
    room: &mut Room,
) -> Result<Now, Exit>
    requires nested { Nested frames.old here.now }
    ensures rest { Goes program.now result frames.new here.now room.new (rest program.now frames.old here.now (settled here.now (audition_live program.now (again_by program.now (evaluator program.now depth) levels) here.now.act view.now ask room.old))) }
    ensures nested { Stays result frames.new here.now }
{
    match ask {
        AuditionAsk::GetsForm => given(object_form(program, here.act, view.node, room)),
        AuditionAsk::GetsGuard(name) => {
            let near = room.refs.deref(name);
            given(guard_asked(&room.heap, view, near))
        }
        AuditionAsk::Asks(auditor) => {
            let held = auditor;
            let near = room.refs.deref(held);
            verdict(
                program, depth, levels, view, auditor, near, frames, here, room,
            )
        }
        AuditionAsk::NoMethod => Err(Exit::Thrown(problem_id(Problem::NoMethod))),
    }
}

/// What an audition answers, which is alive or dead.
#[tactic(auto, using(crate::proofs::Auditing::live_answers, crate::proofs::Auditing::dead_answers, crate::proofs::Rests::gone))]
pub(crate) fn audition_answer(
    program: &Program,
    depth: u32,
    levels: Option<u128>,
    alive: bool,
    view: &AuditView,
    verb: &Word,
    args: &[Value],
    frames: &mut Frames,
    here: &Scope,
    room: &mut Room,
) -> Result<Now, Exit>
    requires nested { Nested frames.old here.now }
    ensures rest { Goes program.now result frames.new here.now room.new (rest program.now frames.old here.now (settled here.now (audition_answer program.now (again_by program.now (evaluator program.now depth) levels) here.now.act alive view.now (asking verb.now args.now) room.old))) }
    ensures nested { Stays result frames.new here.now }
{
    let ask = audition_ask(verb.as_str(), args);
    if !alive {
        return Err(Exit::Thrown(dead_problem(ask)));
    }
    audition_live(program, depth, levels, view, ask, frames, here, room)
}

/// A call on an audition, as it is held.
#[tactic(auto, using(crate::proofs::Auditing::audition_told, crate::proofs::Auditing::audition_ends, crate::proofs::Rests::gone))]
pub(crate) fn call_audition(
    program: &Program,
    depth: u32,
    levels: Option<u128>,
    held: Value,
    alive: bool,
    view: &AuditView,
    verb: &Word,
    args: &[Value],
    frames: &mut Frames,
    here: &Scope,
    room: &mut Room,
) -> Result<Now, Exit>
    requires nested { Nested frames.old here.now }
    ensures rest { Goes program.now result frames.new here.now room.new (rest program.now frames.old here.now (settled here.now (call_audition program.now (again_by program.now (evaluator program.now depth) levels) here.now.act held alive view.now verb.now args.now room.old))) }
    ensures nested { Stays result frames.new here.now }
{
    tell_call(here.act, held, verb, args, None, room)?;
    guard(depth, Guard::Close, frames, here)?;
    audition_answer(
        program, depth, levels, alive, view, verb, args, frames, here, room,
    )
}
