//! What comes of a native guard's coercion of a value, and the guard that takes null as well.

ghost use Rattle.std.specs.Prelude.{◌≡◌, ◌<◌};
ghost use Rattle.ev_prims.specs.Asks.{primitive_at};
ghost use Rattle.ev_room.specs.Coercion.{guard_coerced, native_coerced, null_or, null_or_guard, null_or_prim};

use crate::data::is_there;
use crate::guards::{refusal_id, takes};
use ev_base::{PrimId, TextId, Value};
use ev_heap::Heap;
use ev_prims::{Guard, Kind, Primitive, Problem, Reply, primitive_of};

/// The first number of a guard that takes null as well.
const FIRST_WITH_NULL: u8 = 32;

/// What comes of a coercion.
#[derive(Clone, Copy)]
pub enum Coerced {
    /// It gives this value.
    Takes(Value),
    /// The guard refuses with this problem.
    Refuses(TextId),
    /// What was to coerce is no guard.
    NoGuard,
    /// The value does not stand in the heap.
    Astray,
}

/// What comes of a native guard at a value, as it is held and as it is followed.
#[tactic(auto, unfolding(crate::specs::Coercion::guard_coerced))]
pub fn guard_coerced(heap: &Heap, guard: Guard, held: Value, followed: Value) -> Coerced
    ensures { result ≡ guard_coerced heap.now guard held followed }
{
    let asked = followed;
    if !is_there(heap, asked) {
        return Coerced::Astray;
    }
    match takes(heap, guard, held, followed) {
        Some(taken) => Coerced::Takes(taken),
        None => Coerced::Refuses(refusal_id(guard)),
    }
}

/// The same of the primitive of a number, which may be no guard.
#[tactic(auto, unfolding(crate::specs::Coercion::native_coerced))]
pub fn native_coerced(heap: &Heap, number: PrimId, held: Value, followed: Value) -> Coerced
    ensures { result ≡ native_coerced heap.now number held followed }
{
    match primitive_of(number) {
        Primitive::Guarding(guard) => guard_coerced(heap, guard, held, followed),
        _ => Coerced::NoGuard,
    }
}

/// The guard that takes null as well as this one, which has this number.
fn null_or_guard(guard: Guard, number: PrimId) -> Reply
    requires { number < 32 }
    ensures { result ≡ null_or_guard number guard }
{
    if guard.or_null {
        return Reply::Fails(Problem::BadArgument);
    }
    match guard.kind {
        Kind::Null => Reply::Fails(Problem::BadArgument),
        _ => Reply::Says(Value::Prim(PrimId(FIRST_WITH_NULL + number.0))),
    }
}

/// The guard that takes null as well as the primitive of that number.
#[tactic(auto, using(crate::proofs::Guarding::null_or_high))]
fn null_or_number(number: PrimId) -> Reply
    ensures { result ≡ null_or_prim number (primitive_at number) }
{
    if number.0 >= FIRST_WITH_NULL {
        return Reply::Fails(Problem::BadArgument);
    }
    match primitive_of(number) {
        Primitive::Guarding(guard) => null_or_guard(guard, number),
        _ => Reply::Fails(Problem::BadArgument),
    }
}

/// The guard that takes null as well as what a native guard takes. What is no native guard, and a guard that takes null itself, is
/// a bad argument.
#[tactic(auto, unfolding(crate::specs::Coercion::null_or))]
pub fn null_or(value: Value) -> Reply
    ensures { result ≡ null_or value }
{
    match value {
        Value::Prim(number) => null_or_number(number),
        _ => Reply::Fails(Problem::BadArgument),
    }
}
