//! Which values of a vat are frozen, and which are near: what two native guards ask.

ghost use Rattle.std.specs.Prelude.{◌≡◌, ◌&&◌, nat_le};
ghost use Rattle.ev_heap.specs.Contents.{IsWeighable, height_of, is_plain};
ghost use Rattle.ev_audit.specs.Frozen.{IsHeld, is_frozen, is_near};

use crate::stamps::audited_by;
use ev_base::{PrimId, Value};
use ev_heap::Heap;

/// The primitive whose stamp frozen objects bear.
const DEEP_FROZEN: PrimId = PrimId(17);

/// The height of the highest list that may be frozen, which is that of the highest list there is.
const MOST_HEIGHT: u64 = 100;

/// Whether data holds no name at any depth, and is no higher than a list may be.
fn is_plain(heap: &Heap, value: &Value) -> bool
    requires { IsWeighable heap.now value.now }
    ensures { result ≡ (is_plain heap.now value.now && nat_le (height_of heap.now value.now) 100) }
{
    heap.is_plain(*value) && heap.height(*value) <= MOST_HEIGHT
}

/// Whether a followed value is frozen: data with no name at any depth, a primitive, or an object of this vat that bears the
/// stamp of DeepFrozen.
pub fn is_frozen(heap: &Heap, value: &Value) -> bool
    requires { IsHeld heap.now value.now }
    ensures { result ≡ is_frozen heap.now value.now }
{
    match value {
        Value::Obj(object) => audited_by(heap, *object, Value::Prim(DEEP_FROZEN)),
        Value::Prom(_) | Value::Far(_, _) => false,
        _ => is_plain(heap, value),
    }
}

/// Whether a followed value is near: an object of this vat or data. A promise, what is far and what is broken are not.
pub fn is_near(value: &Value) -> bool
    ensures { result ≡ is_near value.now }
{
    !matches!(value, Value::Prom(_) | Value::Far(_, _) | Value::Broken(_))
}
