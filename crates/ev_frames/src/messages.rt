//! What a turn does with a message.

ghost use Rattle.std.specs.Prelude.{◌≡◌, [], reverse};
ghost use Rattle.ev_steps.specs.Steps.{evaluator, run_object, turn_object, turn_value};
ghost use Rattle.ev_room.specs.declared.scope.Scope.{Scope as Surroundings};
ghost use Rattle.ev_frames.specs.Rest.{Goes, Nested, Stays, rest, settled};

use crate::answers::answered;
use crate::audits::audition_answer;
use crate::calls::found_begins;
use crate::frames::{Frames, Guard};
use crate::now::{Now, given, guard};
use crate::performs::perform;
use ev_base::{ObjId, Value, Word};
use ev_room::Program;
use ev_room::ejector::ejector_answer;
use ev_room::exit::Exit;
use ev_room::object::{Code, Object, look_code};
use ev_room::room::Room;
use ev_room::scope::Scope;
use ev_room::tree::{first_method, members_of};
use ev_steps::resolver_answer;

/// The code of an object runs in the turn's own activation, in the scope of the object's captures.
#[tactic(auto, using(crate::proofs::Calling::run_begins, crate::proofs::Calling::run_nested))]
fn run_code(
    program: &Program,
    depth: u32,
    verb: &Word,
    args: &[Value],
    code: Object,
    frames: &mut Frames,
    here: &mut Scope,
    room: &mut Room,
) -> Result<Now, Exit>
    requires bare { here.old.nouns ≡ [] }
    requires nested { Nested frames.old here.old }
    ensures rest { Goes program.now result frames.new here.new room.new (rest program.now frames.old here.old (settled here.old (run_object program.now (evaluator program.now depth) code.node verb.now args.now (record { act = here.old.act; nouns = reverse code.nouns }) room.old))) }
    ensures nested { Stays result frames.new here.new }
{
    guard(depth, Guard::Alone, frames, here)?;
    let scope = Scope {
        act: here.act,
        nouns: code.nouns.scope(room.alloc),
    };
    *here = scope;
    let members = members_of(program.nodes(), code.node);
    let found = first_method(program.nodes(), members, verb, args.len());
    found_begins(
        program, depth, members, verb, found, args, frames, here, room,
    )
}

/// A message on what bears a number: an object, an ejector, a resolver or an audition.
#[tactic(auto, using(crate::proofs::Calling::turn_runs, crate::proofs::Calling::turn_leaves, crate::proofs::Calling::turn_resolves, crate::proofs::Calling::turn_audits, crate::proofs::Calling::given_stays, crate::proofs::Calling::turn_ends, crate::proofs::Rests::gone))]
fn object_takes(
    program: &Program,
    depth: u32,
    object: ObjId,
    verb: &Word,
    args: &[Value],
    frames: &mut Frames,
    here: &mut Scope,
    room: &mut Room,
) -> Result<Now, Exit>
    requires bare { here.old.nouns ≡ [] }
    requires nested { Nested frames.old here.old }
    ensures rest { Goes program.now result frames.new here.new room.new (rest program.now frames.old here.old (settled here.old (turn_object program.now (evaluator program.now depth) here.old.act object verb.now args.now room.old))) }
    ensures nested { Stays result frames.new here.new }
{
    match look_code(object, room)? {
        Code::Runs(code) => run_code(program, depth, verb, args, code, frames, here, room),
        Code::Leaves(alive) => given(ejector_answer(object, alive, verb.as_str(), args)),
        Code::Resolves(promise) => given(resolver_answer(promise, verb.as_str(), args, room)),
        Code::Audits(alive, view) => audition_answer(
            program, depth, None, alive, &view, verb, args, frames, here, room,
        ),
    }
}

/// A turn takes a message on a target, as that is followed. It tells no line of its own.
#[tactic(auto, using(crate::proofs::Rests::gone), unfolding(ev_steps::specs::Steps::turn_value, ev_room::specs::Acts::fail, ev_room::specs::Acts::and_then))]
pub fn takes(
    program: &Program,
    depth: u32,
    target: Value,
    verb: &Word,
    args: &[Value],
    frames: &mut Frames,
    here: &mut Scope,
    room: &mut Room,
) -> Result<Now, Exit>
    requires bare { here.old.nouns ≡ [] }
    requires nested { Nested frames.old here.old }
    ensures rest { Goes program.now result frames.new here.new room.new (rest program.now frames.old here.old (settled here.old (turn_value program.now (evaluator program.now depth) here.old.act target verb.now args.now room.old))) }
    ensures nested { Stays result frames.new here.new }
{
    match target {
        Value::Obj(object) => object_takes(program, depth, object, verb, args, frames, here, room),
        Value::Broken(id) => Err(Exit::Thrown(id)),
        Value::Prim(number) => perform(
            program, depth, None, number, verb, args, frames, here, room,
        ),
        Value::Null
        | Value::Bool(_)
        | Value::Int(_)
        | Value::Char(_)
        | Value::Text(_)
        | Value::List(_) => answered(program, depth, None, target, verb, args, frames, here, room),
        Value::Prom(_) | Value::Far(_, _) => Err(Exit::Astray),
    }
}
