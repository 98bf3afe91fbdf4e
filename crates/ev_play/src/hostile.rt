//! The hostile vats of a play.

ghost use Rattle.std.specs.Prelude.{◌≡◌, ◌≤◌, ◌==◌, IfOk, length, map};
ghost use Rattle.std.specs.List.{list_all};
ghost use Rattle.serde_json.specs.View.{view};
ghost use Rattle.ev_script.specs.Json.{each};
ghost use Rattle.ev_play.specs.Hostile.{has_no_source, hostile_in, hostile_of, is_hostile, is_play_object, may_do, member_there, vat_named};

use crate::play::Doing;
use ev_base::{Memory, Seq, Str, VatId};
use ev_script::VatScript;
use ev_script::json::{has_count, has_member, list_of};
use ev_script::vats::{place_of, stand_once};
use serde_json::Value;
use std::alloc::Global;

/// 1 where the value is an object with a member of this name, and else 0.
fn member_there(value: &Value, name: &str) -> usize
    ensures count { result ≡ member_there name.now (view value.now) }
    ensures one { result ≤ 1 }
{
    if has_member(value, name) { 1 } else { 0 }
}

/// Whether the value is an object with the members `key`, `vats` and `schedule`, perhaps `fuel`, perhaps `hostile`, and no
/// other.
pub(crate) fn is_play_object(value: &Value) -> bool
    ensures { result ≡ is_play_object (view value.now) }
{
    let fuel = member_there(value, "fuel");
    let hostile = member_there(value, "hostile");
    has_count(value, 3 + fuel + hostile)
        && has_member(value, "key")
        && has_member(value, "vats")
        && has_member(value, "schedule")
}

/// The vat that a value names.
fn vat_named(names: &[Str], value: &Value) -> Option<VatId>
    requires { length names.now ≤ 16 }
    ensures { result ≡ vat_named names.now (view value.now) }
{
    match value.as_str() {
        Some(text) => place_of(names, text),
        None => None,
    }
}

/// The vats that values name, where each names one.
fn vats_named(alloc: Global, names: &[Str], values: &[Value]) -> Result<Option<Seq<VatId>>, Memory>
    requires { length names.now ≤ 16 }
    ensures { IfOk result (λ places. places ≡ each (vat_named names.now) (map view values.now)) }
{
    let mut places = Seq::new(alloc);
    for value in values {
        let Some(place) = vat_named(names, value) else {
            return Ok(None);
        };
        places.push(place)?;
    }
    Ok(Some(places))
}

/// The vats of a value that is a list of names, each once.
fn hostile_in(alloc: Global, names: &[Str], value: &Value) -> Result<Option<Seq<VatId>>, Memory>
    requires { length names.now ≤ 16 }
    ensures { IfOk result (λ hostile. hostile ≡ hostile_in names.now (view value.now)) }
{
    let Some(values) = list_of(value) else {
        return Ok(None);
    };
    let Some(places) = vats_named(alloc, names, values)? else {
        return Ok(None);
    };
    if stand_once(places.as_slice()) {
        Ok(Some(places))
    } else {
        Ok(None)
    }
}

/// The vats that a script names as hostile: none where it does not say.
pub(crate) fn hostile_of(
    alloc: Global,
    names: &[Str],
    value: &Value,
) -> Result<Option<Seq<VatId>>, Memory>
    requires { length names.now ≤ 16 }
    ensures { IfOk result (λ hostile. hostile ≡ hostile_of names.now (view value.now)) }
{
    match value.get("hostile") {
        Some(member) => hostile_in(alloc, names, member),
        None => Ok(Some(Seq::new(alloc))),
    }
}

/// Whether the vat at a place has the empty text as its program.
fn has_no_source(vats: &[VatScript], place: VatId) -> bool
    ensures { result ≡ has_no_source vats.now place }
{
    match vats.get(usize::from(place.0)) {
        Some(vat) => vat.source.len() == 0,
        None => true,
    }
}

/// Whether the program of each of these vats is the empty text.
pub(crate) fn have_no_source(vats: &[VatScript], places: &[VatId]) -> bool
    ensures { result ≡ list_all (has_no_source vats.now) places.now }
{
    places.iter().all(|place| has_no_source(vats, *place))
}

fn is_hostile(hostile: &[VatId], vat: VatId) -> bool
    ensures { result ≡ is_hostile hostile.now vat }
{
    hostile.iter().any(|other| *other == vat)
}

/// Whether this may be done: a hostile vat alone injects.
fn may_do(hostile: &[VatId], doing: &Doing) -> bool
    ensures { result ≡ may_do hostile.now doing.now }
{
    match doing {
        Doing::Does(_) => true,
        Doing::Inject { from, .. } => is_hostile(hostile, *from),
    }
}

/// Whether all of it may be done.
pub(crate) fn may_do_all(hostile: &[VatId], doings: &[Doing]) -> bool
    ensures { result ≡ list_all (may_do hostile.now) doings.now }
{
    doings.iter().all(|doing| may_do(hostile, doing))
}
