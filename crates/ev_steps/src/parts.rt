//! Which values are lists, and whether others are the same.

ghost use Rattle.std.specs.Prelude.{◌≡◌};
ghost use Rattle.std.specs.Str.{bytes_eq};
ghost use Rattle.ev_prims.specs.Reading.{text_in};
ghost use Rattle.ev_refs.specs.Leading.{list_of};
ghost use Rattle.ev_steps.specs.Same.{same_plain};

use ev_base::{TextId, Value};
use ev_heap::Heap;
use ev_room::data::text_of;

/// The list that a value is.
pub fn list_in(value: Value) -> Option<u64>
    ensures { result ≡ list_of value }
{
    match value {
        Value::List(list) => Some(list.0),
        _ => None,
    }
}

/// Whether two texts are the same.
fn same_texts(heap: &Heap, one: TextId, other: TextId) -> bool
    ensures { result ≡ bytes_eq (text_in heap.now one) (text_in heap.now other) }
{
    text_of(heap, one) == text_of(heap, other)
}

/// Whether two values that are no lists are the same.
#[tactic(auto, unfolding(crate::specs::Same::same_plain))]
pub fn same_plain(heap: &Heap, x: &Value, y: &Value) -> bool
    ensures { result ≡ same_plain (text_in heap.now) x.now y.now }
{
    match *x {
        Value::Null => matches!(*y, Value::Null),
        Value::Bool(a) => match *y {
            Value::Bool(b) => if a { b } else { !b },
            _ => false,
        },
        Value::Int(a) => matches!(*y, Value::Int(b) if a == b),
        Value::Char(a) => matches!(*y, Value::Char(b) if a == b),
        Value::Prim(a) => matches!(*y, Value::Prim(b) if a.0 == b.0),
        Value::Obj(a) => matches!(*y, Value::Obj(b) if a.0 == b.0),
        Value::Prom(a) => matches!(*y, Value::Prom(b) if a.0 == b.0),
        Value::Far(v, p) => matches!(*y, Value::Far(u, q) if v.0 == u.0 && p == q),
        Value::Text(a) => matches!(*y, Value::Text(b) if same_texts(heap, a, b)),
        Value::Broken(a) => matches!(*y, Value::Broken(b) if same_texts(heap, a, b)),
        _ => false,
    }
}
