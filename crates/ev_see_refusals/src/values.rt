//! Which values in lines are the same.

ghost use Rattle.std.specs.Prelude.{◌≡◌};
ghost use Rattle.def_why.specs.Values.{is_broken_so, is_char, is_data, is_flag, is_int, is_list, is_list_at, is_members, is_name, is_null, is_prim, is_slot_at, is_text, is_told_as, may_all_be, may_be, same};

use def_event::Shown;
use ev_base::{Name, PrimId, VatId};

#[tactic(auto, unfolding(def_why::specs::Values::is_null))]
fn is_null(value: &Shown) -> bool
    ensures { result ≡ is_null value.now }
{
    match value {
        Shown::Null => true,
        _ => false,
    }
}

#[tactic(auto, unfolding(def_why::specs::Values::is_flag))]
fn is_flag(flag: bool, value: &Shown) -> bool
    ensures { result ≡ is_flag flag value.now }
{
    match value {
        Shown::Bool(other) => (flag && *other) || !(flag || *other),
        _ => false,
    }
}

#[tactic(auto, unfolding(def_why::specs::Values::is_int))]
fn is_int(number: i128, value: &Shown) -> bool
    ensures { result ≡ is_int number value.now }
{
    match value {
        Shown::Int(other) => number == *other,
        _ => false,
    }
}

#[tactic(auto, unfolding(def_why::specs::Values::is_char))]
fn is_char(character: char, value: &Shown) -> bool
    ensures { result ≡ is_char character value.now }
{
    match value {
        Shown::Char(other) => character == *other,
        _ => false,
    }
}

#[tactic(auto, unfolding(def_why::specs::Values::is_text))]
fn is_text(text: &str, value: &Shown) -> bool
    ensures { result ≡ is_text text.now value.now }
{
    match value {
        Shown::Text(other) => text == other.as_str(),
        _ => false,
    }
}

#[tactic(auto, unfolding(def_why::specs::Values::is_broken_so))]
fn is_broken_so(problem: &str, value: &Shown) -> bool
    ensures { result ≡ is_broken_so problem.now value.now }
{
    match value {
        Shown::Broken(other) => problem == other.as_str(),
        _ => false,
    }
}

#[tactic(auto, unfolding(def_why::specs::Values::is_prim))]
fn is_prim(primitive: PrimId, value: &Shown) -> bool
    ensures { result ≡ is_prim primitive value.now }
{
    match value {
        Shown::Prim(other) => primitive.0 == other.0,
        _ => false,
    }
}

#[tactic(auto, unfolding(def_why::specs::Values::is_list_at))]
fn is_list_at(vat: VatId, number: u64, value: &Shown) -> bool
    ensures { result ≡ is_list_at vat number value.now }
{
    match value {
        Shown::List(other, place) => vat.0 == other.0 && number == *place,
        _ => false,
    }
}

#[tactic(auto, unfolding(def_why::specs::Values::is_slot_at))]
fn is_slot_at(vat: VatId, number: u64, value: &Shown) -> bool
    ensures { result ≡ is_slot_at vat number value.now }
{
    match value {
        Shown::Slot(other, place) => vat.0 == other.0 && number == *place,
        _ => false,
    }
}

#[tactic(auto, unfolding(def_why::specs::Values::is_name))]
fn is_name(name: Name, value: &Shown) -> bool
    ensures { result ≡ is_name name value.now }
{
    match value {
        Shown::Name(other) => name == *other,
        _ => false,
    }
}

/// Whether two values are the same, and no list of a note.
#[tactic(auto, unfolding(def_why::specs::Values::same))]
pub fn same(value: &Shown, other: &Shown) -> bool
    ensures { result ≡ same value.now other.now }
{
    match value {
        Shown::Null => is_null(other),
        Shown::Bool(flag) => is_flag(*flag, other),
        Shown::Int(number) => is_int(*number, other),
        Shown::Char(character) => is_char(*character, other),
        Shown::Text(text) => is_text(text.as_str(), other),
        Shown::Broken(problem) => is_broken_so(problem.as_str(), other),
        Shown::Prim(primitive) => is_prim(*primitive, other),
        Shown::List(vat, number) => is_list_at(*vat, *number, other),
        Shown::Slot(vat, number) => is_slot_at(*vat, *number, other),
        Shown::Name(name) => is_name(*name, other),
        Shown::Members(_) => false,
    }
}

#[tactic(auto, unfolding(def_why::specs::Values::is_members))]
fn is_members(value: &Shown) -> bool
    ensures { result ≡ is_members value.now }
{
    match value {
        Shown::Members(_) => true,
        _ => false,
    }
}

#[tactic(auto, unfolding(def_why::specs::Values::is_list))]
fn is_list(value: &Shown) -> bool
    ensures { result ≡ is_list value.now }
{
    match value {
        Shown::List(_, _) => true,
        _ => false,
    }
}

/// Whether a value is what a note tells. A list comes in a note by its members.
pub fn is_told_as(note: &Shown, value: &Shown) -> bool
    ensures { result ≡ is_told_as note.now value.now }
{
    (is_members(note) && is_list(value)) || same(note, value)
}

#[tactic(auto, unfolding(def_why::specs::Values::is_data))]
fn is_data(value: &Shown) -> bool
    ensures { result ≡ is_data value.now }
{
    match value {
        Shown::Name(_) | Shown::List(_, _) | Shown::Members(_) => false,
        _ => true,
    }
}

/// Whether a value may be what another has come to be: data stays as it is.
fn may_be(value: &Shown, later: &Shown) -> bool
    ensures { result ≡ may_be value.now later.now }
{
    !(is_data(value) && is_data(later)) || same(value, later)
}

/// The same, one for one.
pub fn may_all_be(values: &[Shown], later: &[Shown]) -> bool
    ensures { result ≡ may_all_be values.now later.now }
{
    if values.len() != later.len() {
        return false;
    }
    let mut index = 0;
    while index < values.len() {
        if !may_be(&values[index], &later[index]) {
            return false;
        }
        index += 1;
    }
    true
}
