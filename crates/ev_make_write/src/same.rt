//! Whether the same is told twice.

ghost use Rattle.std.specs.Prelude.{◌≡◌, ◌↔◌, IsTrue};

use def_vats::{Told, ToldVat};
use ev_base::Str;

/// Whether the texts are the same.
fn same_texts(a: &[Str], b: &[Str]) -> bool
    ensures { IsTrue result ↔ (a.now ≡ b.now) }
{
    if a.len() != b.len() {
        return false;
    }
    for i in 0..a.len() {
        if a[i].as_str() != b[i].as_str() {
            return false;
        }
    }
    true
}

/// Whether the same is told of two vats.
fn same_vat(a: &ToldVat, b: &ToldVat) -> bool
    ensures { IsTrue result ↔ (a.now ≡ b.now) }
{
    a.name.as_str() == b.name.as_str()
        && a.source.as_str() == b.source.as_str()
        && same_texts(a.knows.as_slice(), b.knows.as_slice())
}

/// Whether the same is told of the vats.
fn same_vats(a: &[ToldVat], b: &[ToldVat]) -> bool
    ensures { IsTrue result ↔ (a.now ≡ b.now) }
{
    if a.len() != b.len() {
        return false;
    }
    for i in 0..a.len() {
        if !same_vat(&a[i], &b[i]) {
            return false;
        }
    }
    true
}

/// Whether the same fuel is told, or none.
fn same_fuel(a: Option<u64>, b: Option<u64>) -> bool
    ensures { IsTrue result ↔ (a ≡ b) }
{
    a == b
}

/// Whether the same is told.
pub fn same(a: &Told, b: &Told) -> bool
    ensures { IsTrue result ↔ (a.now ≡ b.now) }
{
    a.key.as_str() == b.key.as_str()
        && same_fuel(a.fuel, b.fuel)
        && same_vats(a.vats.as_slice(), b.vats.as_slice())
        && same_texts(a.schedule.as_slice(), b.schedule.as_slice())
}
