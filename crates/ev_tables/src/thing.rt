//! A value as a key.

ghost use Rattle.std.specs.Prelude.{◌≡◌, ◌↔◌, IsTrue};
ghost use Rattle.ev_tables.specs.Thing.{mark, number, same_value};

use ev_base::Value;
use std::hash::{Hash, Hasher};

/// A value that has a number in a table.
#[derive(Clone, Copy)]
pub(crate) struct Thing(pub Value);

fn equal(left: Value, right: Value) -> bool
    ensures { IsTrue result ↔ (left ≡ right) }
{
    left == right
}

/// Whether two values are one.
fn same_value(left: Value, right: Value) -> bool
    ensures { result ≡ same_value left right }
{
    equal(left, right)
}

fn mark(value: Value) -> u8
    ensures { result ≡ mark value }
{
    match value {
        Value::Obj(_) => 1,
        Value::Prom(_) => 2,
        Value::Far(_, _) => 3,
        _ => 0,
    }
}

fn number(value: Value) -> u64
    ensures { result ≡ number value }
{
    match value {
        Value::Obj(object) => object.0,
        Value::Prom(promise) => promise.0,
        Value::Far(_, position) => position,
        _ => 0,
    }
}

impl PartialEq for Thing {
    ghost use Rattle.std.specs.Ordering.{on};
    ghost use Rattle.std.specs.Cmp.{on_per, partial_equiv_from_equiv};
    ghost use Rattle.ev_tables.specs.Thing.{same_value};
    ghost use Rattle.ev_tables.specs.SameLaws.{same_value_equiv};

    ghost eq = { on (λ t. t.0) same_value };

    ghost laws = { on_per (λ t. t.0) (partial_equiv_from_equiv same_value_equiv) };

    fn eq(&self, other: &Thing) -> bool {
        same_value(self.0, other.0)
    }
}

impl Eq for Thing {
    ghost use Rattle.std.specs.Cmp.{on_equiv};
    ghost use Rattle.ev_tables.specs.SameLaws.{same_value_equiv};

    ghost laws = { on_equiv (λ t. t.0) same_value_equiv };
}

impl Hash for Thing {
    ghost use Rattle.std.specs.Prelude.{◌++◌};
    ghost use Rattle.std.specs.Hash as fed;
    ghost use Rattle.ev_tables.specs.Thing.{mark, number};
    ghost use Rattle.ev_tables.specs.SameLaws.{same_is};
    ghost use Rattle.std.proofs.Common.{ap};

    ghost hash_input = { λ t. fed.u8 (mark t.0) ++ fed.u64 (number t.0) };

    ghost respects_eq = { λ a b h. ap (λ v. fed.u8 (mark v) ++ fed.u64 (number v)) (same_is a.0 b.0 h) };

    fn hash<H: Hasher>(&self, state: &mut H) {
        mark(self.0).hash(state);
        number(self.0).hash(state);
    }
}
