//! Guards of patterns and of var slots.

ghost use Rattle.std.specs.Prelude.{◌≡◌, ◌∷◌, [], codes, Some, slice_get};
ghost use Rattle.ev_base.specs.declared.values.Value.TheVariants.{Obj};
ghost use Rattle.ev_heap.specs.declared.kept.GuardKind.TheVariants.{Native, User};
ghost use Rattle.ev_steps.specs.Steps.{bind_by, bind_coerced, bind_guarded, bind_under, call, evaluator, failed, handed, write_bound, write_cell, write_under};
ghost use Rattle.ev_room.specs.Acts.{Gives};
ghost use Rattle.ev_room.specs.declared.scope.Scope.{Scope as Surroundings};
ghost use Rattle.ev_frames.specs.Rest.{Goes, Nested, Stays, bound_as, rest, settled};

use ev_base::{ActId, NodeId, ObjId, PrimId, SlotId, TextId, Value, Word};
use ev_frames::calls::calling;
use ev_frames::failings::{NOT_A_GUARD, is_null};
use ev_frames::frames::{Frames, Part};
use ev_frames::now::{Now, enter};
use ev_heap::GuardKind;
use ev_room::Program;
use ev_room::coercion::{Coerced, native_coerced};
use ev_room::exit::{Came, Exit};
use ev_room::room::Room;
use ev_room::scope::{Bound, NO_GUARD, Scope};
use ev_room::slots::{guard_of, write_slot};
use ev_steps::handing::handed;
use ev_steps::pattern::bind_coerced;
use ev_steps::target::Target;

/// A failing calls the ejector where there is one, and throws where that comes back.
#[tactic(auto, using(crate::proofs::Coercing::fails_at_once, crate::proofs::Coercing::fails_by))]
pub(crate) fn failing(
    program: &Program,
    depth: u32,
    ejector: Value,
    problem: TextId,
    frames: &mut Frames,
    here: &mut Scope,
    room: &mut Room,
) -> Result<Now, Exit>
    requires nested { Nested frames.old here.old }
    ensures rest { Goes program.now result frames.new here.new room.new (rest program.now frames.old here.old (bound_as (failed (call program.now (evaluator program.now depth)) here.old.act ejector problem room.old))) }
    ensures nested { Stays result frames.new here.new }
{
    let tested = ejector;
    if is_null(room.refs.deref(tested)) {
        return Err(Exit::Thrown(problem));
    }
    enter(depth, Part::Fails(problem), frames, here)?;
    let run = Word::run();
    calling(
        program,
        depth,
        ejector,
        &run,
        &[Value::Text(problem)],
        frames,
        here,
        room,
    )
}

/// An object is asked to coerce a specimen with an ejector.
#[tactic(auto, using(crate::proofs::Coercing::asked_as))]
fn ask_object(
    program: &Program,
    depth: u32,
    object: ObjId,
    specimen: Value,
    ejector: Value,
    frames: &mut Frames,
    here: &mut Scope,
    room: &mut Room,
) -> Result<Now, Exit>
    requires nested { Nested frames.old here.old }
    ensures rest { Goes program.now result frames.new here.new room.new (rest program.now frames.old here.old (settled here.old (call program.now (evaluator program.now depth) here.old.act (Obj object) (codes "coerce") (specimen ∷ handed room.old ejector ∷ []) room.old))) }
    ensures nested { Stays result frames.new here.new }
{
    let coerce = Word::copy_of(room.alloc, "coerce")?;
    let by = handed(room, ejector);
    calling(
        program,
        depth,
        Value::Obj(object),
        &coerce,
        &[specimen, by],
        frames,
        here,
        room,
    )
}

// ---- patterns

/// What a guard has made of a specimen is bound.
#[tactic(auto, using(ev_frames::proofs::Patterning::step_bound, ev_frames::proofs::Patterning::step_ends, ev_frames::proofs::Rests::nested_behind, ev_frames::proofs::Rests::gone))]
pub(crate) fn coerced(
    program: &Program,
    target: &Target,
    guard: GuardKind,
    value: Value,
    frames: &Frames,
    here: &mut Scope,
    room: &mut Room,
) -> Result<Now, Exit>
    requires nested { Nested frames.now here.old }
    ensures rest { Goes program.now result frames.now here.new room.new (rest program.now frames.now here.old (bound_as (bind_coerced here.old.act target.now guard value here.old room.old))) }
    ensures nested { Stays result frames.now here.new }
{
    bind_coerced(target, guard, value, here, room)?;
    Ok(Now::Ended(Came::Gave(Value::Null)))
}

/// A pattern at a specimen under a native guard, or under a primitive that is none.
#[tactic(auto, using(crate::proofs::Coercing::native_takes, crate::proofs::Coercing::native_refuses, crate::proofs::Coercing::native_none, crate::proofs::Coercing::native_astray, ev_frames::proofs::Rests::gone))]
fn native(
    program: &Program,
    depth: u32,
    target: &Target,
    number: PrimId,
    specimen: Value,
    ejector: Value,
    frames: &mut Frames,
    here: &mut Scope,
    room: &mut Room,
) -> Result<Now, Exit>
    requires nested { Nested frames.old here.old }
    ensures rest { Goes program.now result frames.new here.new room.new (rest program.now frames.old here.old (bound_as (bind_by program.now (evaluator program.now depth) here.old.act target.now specimen ejector (Native number) here.old room.old))) }
    ensures nested { Stays result frames.new here.new }
{
    let guard = GuardKind::Native(number);
    let held = specimen;
    let near = room.refs.deref(held);
    match native_coerced(&room.heap, number, specimen, near) {
        Coerced::Takes(value) => coerced(program, target, guard, value, frames, here, room),
        Coerced::Refuses(problem) => failing(program, depth, ejector, problem, frames, here, room),
        Coerced::NoGuard => Err(Exit::Thrown(NOT_A_GUARD)),
        Coerced::Astray => Err(Exit::Astray),
    }
}

/// A pattern at a specimen under an object as its guard.
#[tactic(auto, using(crate::proofs::Coercing::object_binds))]
fn by_object(
    program: &Program,
    depth: u32,
    target: Target,
    object: ObjId,
    specimen: Value,
    ejector: Value,
    frames: &mut Frames,
    here: &mut Scope,
    room: &mut Room,
) -> Result<Now, Exit>
    requires nested { Nested frames.old here.old }
    ensures rest { Goes program.now result frames.new here.new room.new (rest program.now frames.old here.old (bound_as (bind_by program.now (evaluator program.now depth) here.old.act target specimen ejector (User object) here.old room.old))) }
    ensures nested { Stays result frames.new here.new }
{
    enter(
        depth,
        Part::Coerced(target, GuardKind::User(object)),
        frames,
        here,
    )?;
    ask_object(
        program, depth, object, specimen, ejector, frames, here, room,
    )
}

/// A pattern at a specimen, under a value as its guard.
#[tactic(auto, using(crate::proofs::Patterning::ends_so, ev_frames::proofs::Rests::gone), unfolding(ev_steps::specs::Steps::bind_under))]
pub(crate) fn under(
    program: &Program,
    depth: u32,
    target: Target,
    specimen: Value,
    ejector: Value,
    guard: Value,
    frames: &mut Frames,
    here: &mut Scope,
    room: &mut Room,
) -> Result<Now, Exit>
    requires nested { Nested frames.old here.old }
    ensures rest { Goes program.now result frames.new here.new room.new (rest program.now frames.old here.old (bound_as (bind_under program.now (evaluator program.now depth) here.old.act target specimen ejector guard here.old room.old))) }
    ensures nested { Stays result frames.new here.new }
{
    match guard {
        Value::Prim(number) => native(
            program, depth, &target, number, specimen, ejector, frames, here, room,
        ),
        Value::Obj(object) => by_object(
            program, depth, target, object, specimen, ejector, frames, here, room,
        ),
        Value::Null
        | Value::Bool(_)
        | Value::Int(_)
        | Value::Char(_)
        | Value::Text(_)
        | Value::Broken(_)
        | Value::List(_)
        | Value::Prom(_)
        | Value::Far(_, _) => Err(Exit::Thrown(NOT_A_GUARD)),
    }
}

/// A pattern of one name or none begins: its guard is evaluated first, where it has one.
#[tactic(auto, using(crate::proofs::Coercing::guard_begins, crate::proofs::Coercing::guard_none))]
pub(crate) fn guarded(
    program: &Program,
    depth: u32,
    target: Target,
    guard: Option<NodeId>,
    specimen: Value,
    ejector: Value,
    frames: &mut Frames,
    here: &mut Scope,
    room: &mut Room,
) -> Result<Now, Exit>
    requires nested { Nested frames.old here.old }
    ensures rest { Goes program.now result frames.new here.new room.new (rest program.now frames.old here.old (bound_as (bind_guarded program.now (evaluator program.now depth) target guard specimen ejector here.old room.old))) }
    ensures nested { Stays result frames.new here.new }
{
    match guard {
        Some(expression) => {
            enter(
                depth,
                Part::Guarded(target, specimen, ejector),
                frames,
                here,
            )?;
            Ok(Now::Begin(depth, expression))
        }
        None => coerced(program, &target, NO_GUARD, specimen, frames, here, room),
    }
}

// ---- var slots

/// Writes a slot with what its native guard makes of a value.
#[tactic(auto, using(crate::proofs::Coercing::under_takes, crate::proofs::Coercing::under_refuses, crate::proofs::Coercing::under_none, crate::proofs::Coercing::under_astray))]
fn native_written(
    program: &Program,
    depth: u32,
    act: ActId,
    slot: SlotId,
    number: PrimId,
    value: Value,
    room: &mut Room,
) -> Result<Value, Exit>
    ensures outcome { Gives result room.new (write_under (call program.now (evaluator program.now depth)) act slot (Native number) value room.old) }
{
    let held = value;
    let near = room.refs.deref(held);
    match native_coerced(&room.heap, number, value, near) {
        Coerced::Takes(taken) => write_slot(act, slot, taken, room),
        Coerced::Refuses(problem) => Err(Exit::Thrown(problem)),
        Coerced::NoGuard => Err(Exit::Thrown(NOT_A_GUARD)),
        Coerced::Astray => Err(Exit::Astray),
    }
}

/// A slot whose guard is an object is written with what that makes of a value.
#[tactic(auto, using(crate::proofs::Coercing::object_writes))]
fn object_writes(
    program: &Program,
    depth: u32,
    slot: SlotId,
    object: ObjId,
    value: Value,
    frames: &mut Frames,
    here: &mut Scope,
    room: &mut Room,
) -> Result<Now, Exit>
    requires nested { Nested frames.old here.old }
    ensures rest { Goes program.now result frames.new here.new room.new (rest program.now frames.old here.old (settled here.old (write_under (call program.now (evaluator program.now depth)) here.old.act slot (User object) value room.old))) }
    ensures nested { Stays result frames.new here.new }
{
    enter(depth, Part::Writes(slot), frames, here)?;
    ask_object(
        program,
        depth,
        object,
        value,
        Value::Null,
        frames,
        here,
        room,
    )
}

/// A slot of this guard is written with what that makes of a value.
#[tactic(auto, using(ev_frames::proofs::Calling::settled_gave, ev_frames::proofs::Calling::settled_ended, ev_frames::proofs::Rests::gone))]
fn written_under(
    program: &Program,
    depth: u32,
    slot: SlotId,
    guard: GuardKind,
    value: Value,
    frames: &mut Frames,
    here: &mut Scope,
    room: &mut Room,
) -> Result<Now, Exit>
    requires nested { Nested frames.old here.old }
    ensures rest { Goes program.now result frames.new here.new room.new (rest program.now frames.old here.old (settled here.old (write_under (call program.now (evaluator program.now depth)) here.old.act slot guard value room.old))) }
    ensures nested { Stays result frames.new here.new }
{
    match guard {
        GuardKind::Native(number) => {
            let value = native_written(program, depth, here.act, slot, number, value, room)?;
            Ok(Now::Ended(Came::Gave(value)))
        }
        GuardKind::User(object) => {
            object_writes(program, depth, slot, object, value, frames, here, room)
        }
    }
}

/// A slot is written with what its guard makes of a value.
#[tactic(auto, using(crate::proofs::Coercing::cell_none, crate::proofs::Coercing::cell_goes, ev_frames::proofs::Rests::gone))]
fn slot_assigned(
    program: &Program,
    depth: u32,
    slot: SlotId,
    value: Value,
    frames: &mut Frames,
    here: &mut Scope,
    room: &mut Room,
) -> Result<Now, Exit>
    requires nested { Nested frames.old here.old }
    ensures rest { Goes program.now result frames.new here.new room.new (rest program.now frames.old here.old (settled here.old (write_cell (call program.now (evaluator program.now depth)) here.old.act slot value (slice_get room.old.heap.slots slot) room.old))) }
    ensures nested { Stays result frames.new here.new }
{
    match guard_of(&room.heap, slot) {
        None => Err(Exit::Astray),
        Some(guard) => written_under(program, depth, slot, guard, value, frames, here, room),
    }
}

/// What is bound is written, which is to be a var slot.
#[tactic(auto, using(crate::proofs::Coercing::bound_goes, crate::proofs::Coercing::bound_fixed, ev_frames::proofs::Rests::gone))]
fn bound_assigned(
    program: &Program,
    depth: u32,
    bound: Bound,
    value: Value,
    frames: &mut Frames,
    here: &mut Scope,
    room: &mut Room,
) -> Result<Now, Exit>
    requires nested { Nested frames.old here.old }
    ensures rest { Goes program.now result frames.new here.new room.new (rest program.now frames.old here.old (settled here.old (write_bound (call program.now (evaluator program.now depth)) here.old.act (Some bound) value room.old))) }
    ensures nested { Stays result frames.new here.new }
{
    match bound {
        Bound::Slot(slot) => slot_assigned(program, depth, slot, value, frames, here, room),
        Bound::Fixed { .. } => Err(Exit::Astray),
    }
}

/// The value of an assignment is known.
#[tactic(auto, using(crate::proofs::Coercing::bound_none, ev_frames::proofs::Rests::gone))]
pub(crate) fn assigned(
    program: &Program,
    depth: u32,
    bound: Option<Bound>,
    value: Value,
    frames: &mut Frames,
    here: &mut Scope,
    room: &mut Room,
) -> Result<Now, Exit>
    requires nested { Nested frames.old here.old }
    ensures rest { Goes program.now result frames.new here.new room.new (rest program.now frames.old here.old (settled here.old (write_bound (call program.now (evaluator program.now depth)) here.old.act bound value room.old))) }
    ensures nested { Stays result frames.new here.new }
{
    match bound {
        Some(bound) => bound_assigned(program, depth, bound, value, frames, here, room),
        None => Err(Exit::Astray),
    }
}
