//! Ejectors: they are made, called, and end with their escape.

ghost use Rattle.std.specs.Prelude.{◌≡◌, ◌==◌, ◌<◌, Ok, length};
ghost use Rattle.ev_room.specs.Acts.{Gives, call_ejector, ejected, ejector_answer, keep_ejector, kill, new_ejector};

use crate::call::closed;
use crate::data::problem_id;
use crate::exit::Exit;
use crate::room::{Room, tell, tell_call};
use ev_base::{ActId, Memory, ObjId, Value, Word};
use ev_heap::{Happened, Shape};
use ev_prims::Problem;

/// Keeps an ejector, which is alive.
#[tactic(auto, unfolding(crate::specs::Acts::opened_acts))]
fn keep_ejector(room: &mut Room) -> Result<ObjId, Exit>
    ensures outcome { Gives result room.new (keep_ejector room.old) }
{
    match room.heap.make_object(Shape::Ejector) {
        Ok(ejector) => Ok(ejector),
        Err(Memory) => Err(Exit::Memory),
    }
}

/// Makes an ejector, which is alive.
#[tactic(auto, using(crate::proofs::Exits::ends), unfolding(crate::specs::Acts::opened_acts))]
pub fn new_ejector(act: ActId, room: &mut Room) -> Result<ObjId, Exit>
    ensures outcome { Gives result room.new (new_ejector act room.old) }
{
    let ejector = keep_ejector(room)?;
    tell(room, Happened::Ejector(act, Value::Obj(ejector)))?;
    Ok(ejector)
}

/// Ends an ejector that the heap holds.
#[tactic(auto, using(crate::proofs::Ejectors::kill_goes))]
fn end_there(ejector: ObjId, room: &mut Room)
    requires { ejector < length room.old.heap.things }
    ensures outcome { kill ejector room.old ≡ (Ok tt, room.new) }
{
    room.heap.end_object(ejector);
}

/// An ejector is dead from here on.
#[tactic(auto, using(crate::proofs::Ejectors::kill_past))]
pub fn kill(ejector: ObjId, room: &mut Room)
    ensures outcome { kill ejector room.old ≡ (Ok tt, room.new) }
{
    if ejector.0 < room.heap.object_count() {
        end_there(ejector, room);
    }
}

/// Whether two ejectors are one.
pub fn is_same(one: ObjId, other: ObjId) -> bool
    ensures { result ≡ (one == other) }
{
    one.0 == other.0
}

/// The value with which a call leaves by an ejector.
#[tactic(auto, unfolding(crate::specs::Acts::ejected))]
fn ejected(verb: &str, args: &[Value]) -> Option<Value>
    ensures { result ≡ ejected verb.now args.now }
{
    match args {
        [] => {
            if verb == "run" {
                Some(Value::Null)
            } else {
                None
            }
        }
        [value] => { if verb == "run" { Some(*value) } else { None } }
        _ => None,
    }
}

/// What an ejector answers that is alive or dead.
#[tactic(auto, unfolding(crate::specs::Acts::ejector_answer))]
pub fn ejector_answer(
    ejector: ObjId,
    alive: bool,
    verb: &str,
    args: &[Value],
) -> Result<Value, Exit>
    ensures { result ≡ ejector_answer ejector alive (ejected verb.now args.now) }
{
    match ejected(verb, args) {
        None => Err(Exit::Thrown(problem_id(Problem::NoMethod))),
        Some(value) => {
            if alive {
                Err(Exit::Ejected(ejector, value))
            } else {
                Err(Exit::Thrown(problem_id(Problem::DeadEjector)))
            }
        }
    }
}

/// A call on an ejector, held as that receiver.
#[tactic(auto, using(crate::proofs::Exits::ends), unfolding(crate::specs::Acts::opened_acts))]
pub fn call_ejector(
    act: ActId,
    receiver: Value,
    ejector: ObjId,
    alive: bool,
    verb: &Word,
    args: &[Value],
    room: &mut Room,
) -> Result<Value, Exit>
    ensures outcome { Gives result room.new (call_ejector act receiver ejector alive verb.now args.now room.old) }
{
    tell_call(act, receiver, verb, args, None, room)?;
    let outcome = ejector_answer(ejector, alive, verb.as_str(), args);
    closed(act, outcome, room)
}
