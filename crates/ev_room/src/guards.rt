//! What native guards take of a value, as it is held and as it is followed, and what they throw where they refuse.

ghost use Rattle.std.specs.Prelude.{◌≡◌};
ghost use Rattle.ev_audit.specs.Frozen.{is_frozen};
ghost use Rattle.ev_heap.specs.Contents.{IsWeighable};
ghost use Rattle.ev_room.specs.Takings.{is_kind, kind_place, kind_takes, refusal_id, takes};

use ev_audit::{is_frozen, is_near};
use ev_base::{TextId, Value};
use ev_heap::Heap;
use ev_prims::{Guard, Kind};

/// The text of the first problem of a guard that refuses, and of the first that takes null as well.
const NOT_TAKEN: u64 = 21;

const NOT_TAKEN_OR_NULL: u64 = 31;

/// Whether a value that may be weighed is frozen: an object that the heap does not hold bears no stamp.
#[tactic(auto, using(crate::proofs::Guarding::past_is_not_frozen))]
fn is_frozen_there(heap: &Heap, value: &Value) -> bool
    requires { IsWeighable heap.now value.now }
    ensures { result ≡ is_frozen heap.now value.now }
{
    match value {
        Value::Obj(object) if object.0 >= heap.object_count() => false,
        _ => is_frozen(heap, value),
    }
}

/// Whether a guard of a kind takes a value as it is.
fn is_kind(heap: &Heap, kind: Kind, value: &Value) -> bool
    requires { IsWeighable heap.now value.now }
    ensures { result ≡ is_kind heap.now kind value.now }
{
    match kind {
        Kind::Any => true,
        Kind::Void => false,
        Kind::Int => matches!(value, Value::Int(_)),
        Kind::Boolean => matches!(value, Value::Bool(_)),
        Kind::Char => matches!(value, Value::Char(_)),
        Kind::Text => matches!(value, Value::Text(_)),
        Kind::List => matches!(value, Value::List(_)),
        Kind::Null => matches!(value, Value::Null),
        Kind::Near => is_near(value),
        Kind::Frozen => is_frozen_there(heap, value),
    }
}

/// What a guard of a kind gives for a value, as it is held and as it is followed, and none where it refuses it.
fn kind_takes(heap: &Heap, kind: Kind, held: Value, followed: Value) -> Option<Value>
    requires { IsWeighable heap.now followed }
    ensures { result ≡ kind_takes heap.now kind held followed }
{
    match kind {
        Kind::Any => Some(held),
        Kind::Void => Some(Value::Null),
        _ => {
            if is_kind(heap, kind, &followed) {
                Some(followed)
            } else {
                None
            }
        }
    }
}

/// What a native guard gives for a value, as it is held and as it is followed, which stands in a heap, and none where it refuses it.
pub fn takes(heap: &Heap, guard: Guard, held: Value, followed: Value) -> Option<Value>
    requires { IsWeighable heap.now followed }
    ensures { result ≡ takes heap.now guard held followed }
{
    if guard.or_null && matches!(followed, Value::Null) {
        return Some(Value::Null);
    }
    kind_takes(heap, guard.kind, held, followed)
}

/// The place of a kind among the problems of those that refuse.
fn kind_place(kind: Kind) -> u64
    ensures { result ≡ kind_place kind }
{
    match kind {
        Kind::Any => 0,
        Kind::Void => 1,
        Kind::Int => 2,
        Kind::Boolean => 3,
        Kind::Char => 4,
        Kind::Text => 5,
        Kind::List => 6,
        Kind::Null => 7,
        Kind::Near => 8,
        Kind::Frozen => 9,
    }
}

/// The text of the problem where a guard refuses, among the first of a heap.
pub fn refusal_id(guard: Guard) -> TextId
    ensures { result ≡ refusal_id guard }
{
    let first = if guard.or_null {
        NOT_TAKEN_OR_NULL
    } else {
        NOT_TAKEN
    };
    TextId(first + kind_place(guard.kind))
}
