//! Promises of a vat's own, and broken references.

ghost use Rattle.std.specs.Prelude.{◌≡◌};
ghost use Rattle.ev_steps.specs.Eventual.{broken, make_promise, new_promise, new_resolver};
ghost use Rattle.ev_room.specs.Acts.{Gives};

use ev_base::{ActId, Memory, ObjId, PromId, Value};
use ev_heap::{Happened, Shape};
use ev_prims::Problem;
use ev_room::Exit;
use ev_room::data::{make_list, problem_id};
use ev_room::room::{Room, tell};

/// A promise of this vat comes to be known.
#[tactic(auto, unfolding(crate::specs::Eventual::opened_eventual))]
fn new_promise(room: &mut Room) -> Result<PromId, Exit>
    ensures outcome { Gives result room.new (new_promise room.old) }
{
    match room.refs.new_promise() {
        Ok(promise) => Ok(promise),
        Err(Memory) => Err(Exit::Memory),
    }
}

/// Keeps the resolver of a promise.
#[tactic(auto, unfolding(crate::specs::Eventual::opened_eventual))]
fn new_resolver(promise: PromId, room: &mut Room) -> Result<ObjId, Exit>
    ensures outcome { Gives result room.new (new_resolver promise room.old) }
{
    match room.heap.make_object(Shape::Resolver(promise)) {
        Ok(resolver) => Ok(resolver),
        Err(Memory) => Err(Exit::Memory),
    }
}

/// `Ref.promise`: a list of a new promise and its resolver.
#[tactic(auto, using(ev_room::proofs::Exits::ends), unfolding(crate::specs::Eventual::opened_eventual))]
pub fn make_promise(act: ActId, room: &mut Room) -> Result<Value, Exit>
    ensures outcome { Gives result room.new (make_promise act room.old) }
{
    let promise = new_promise(room)?;
    let resolver = new_resolver(promise, room)?;
    tell(room, Happened::Promise(act, promise, Value::Obj(resolver)))?;
    make_list(act, &[Value::Prom(promise), Value::Obj(resolver)], room)
}

/// `Ref.broken`: a broken reference with this problem, which has to be a text.
#[tactic(auto, unfolding(crate::specs::Eventual::opened_eventual))]
pub fn broken(problem: Value, room: &Room) -> Result<Value, Exit>
    ensures outcome { Gives result room.now (broken problem room.now) }
{
    match room.refs.broken(problem) {
        Some(broken) => Ok(broken),
        None => Err(Exit::Thrown(problem_id(Problem::BadArgument))),
    }
}
