//! Stamps that auditors left.

ghost use Rattle.std.specs.Prelude.{◌≡◌, ◌<◌, ℕ, List, Some, IfSome, length, option_map, slice_get};
ghost use Rattle.def_kernel.specs.declared.node.Node.{Node};
ghost use Rattle.def_machine.specs.Perform as perform;
ghost use Rattle.def_machine.specs.Values.{Words, Local, numbering};
ghost use Rattle.ev_prims.specs.Reading.{value_by, values_by};
ghost use Rattle.ev_audit.specs.Stamps.{bears, same_auditor, stamps_in};

use ev_base::{ObjId, Value};
use ev_heap::{Heap, Shape};

/// Whether two auditors are one.
fn same_auditor(a: Value, b: Value) -> bool
    ensures { result ≡ same_auditor a b }
{
    match a {
        Value::Prim(m) => match b {
            Value::Prim(n) => m.0 == n.0,
            _ => false,
        },
        Value::Obj(i) => match b {
            Value::Obj(j) => i.0 == j.0,
            _ => false,
        },
        Value::Prom(i) => match b {
            Value::Prom(j) => i.0 == j.0,
            _ => false,
        },
        Value::Far(v, p) => match b {
            Value::Far(u, q) => v.0 == u.0 && p == q,
            _ => false,
        },
        _ => false,
    }
}

/// Whether an auditor's stamp is among these.
#[tactic(auto, unfolding(crate::specs::Stamps::bears))]
fn bears(auditor: &Value, stamps: &[Value]) -> bool
    ensures { result ≡ bears auditor.now stamps.now }
{
    for stamp in stamps {
        if same_auditor(*auditor, *stamp) {
            return true;
        }
    }
    false
}

/// The stamps of what bears a number: of an object alone.
fn stamps_of(shape: &Shape) -> &[Value]
    ensures { result.now ≡ stamps_in shape.now }
{
    match shape {
        Shape::Made { stamps, .. } => stamps.as_slice(),
        _ => &[],
    }
}

/// Whether what has a shape bears an auditor's stamp.
#[tactic(auto, using(crate::proofs::Stamping::bears_is))]
fn is_stamped(shape: &Shape, auditor: Value) -> bool
    ensures is { result ≡ bears auditor (stamps_in shape.now) }
    ensures means { (word : ℕ → ℕ) (tree : List Node) (t : ℕ → Words) →
        result ≡ perform.has_stamp (numbering {W = Local} word) tree (value_by t auditor) (values_by t (stamps_in shape.now)) }
{
    bears(&auditor, stamps_of(shape))
}

/// Whether an object bears the stamp of an auditor, which is followed.
pub fn audited_by(heap: &Heap, object: ObjId, auditor: Value) -> bool
    requires { object < length heap.now.things }
    ensures is { option_map (λ thing. bears auditor (stamps_in thing.shape)) (slice_get heap.now.things object) ≡ Some result }
    ensures means { IfSome (slice_get heap.now.things object) (λ thing. (word : ℕ → ℕ) (tree : List Node) (t : ℕ → Words) →
        result ≡ perform.has_stamp (numbering {W = Local} word) tree (value_by t auditor) (values_by t (stamps_in thing.shape))) }
{
    is_stamped(heap.shape(object), auditor)
}
