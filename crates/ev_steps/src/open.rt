//! Whether a value has a part that is unsettled: the lists that are its parts are looked at layer by layer, each once in a layer.

ghost use Rattle.std.specs.Prelude.{◌≡◌, IfOk, length, suc};
ghost use Rattle.ev_refs.specs.Follow.{place_of};
ghost use Rattle.ev_steps.specs.Layers.{Looks, any_within};
ghost use Rattle.ev_steps.specs.Same.{any_of, is_open, is_unsettled};

use crate::parts::list_in;
use ev_base::{ListId, Memory, Value};
use ev_refs::{Place, Refs};
use ev_room::data::members_of;
use ev_room::room::Room;
use indexmap::IndexSet;

/// Whether a followed value that is no list is unsettled.
fn is_unsettled(refs: &Refs, value: &Value) -> bool
    ensures { result ≡ is_unsettled (place_of refs.now value.now) }
{
    match refs.place(*value) {
        Place::Mine(_) => true,
        Place::FarPromise(_, _) => true,
        _ => false,
    }
}

/// Looks at a value: whether it is unsettled. A list is to be looked at in the next layer.
fn look_at(room: &Room, value: Value, next: &mut IndexSet<u64>) -> Result<bool, Memory>
    ensures { IfOk result (λ found. Looks room.now (λ d. is_open room.now d value) next.old.keys found next.new.keys) }
{
    let followed = room.refs.deref(value);
    match list_in(followed) {
        Some(list) => {
            next.insert_full(list)?;
            Ok(false)
        }
        None => Ok(is_unsettled(&room.refs, &followed)),
    }
}

/// Looks at values, until one is unsettled.
fn look_at_all(room: &Room, values: &[Value], next: &mut IndexSet<u64>) -> Result<bool, Memory>
    ensures { IfOk result (λ found. Looks room.now (λ d. any_of (λ v. is_open room.now d v) values.now) next.old.keys found next.new.keys) }
{
    for value in values {
        if look_at(room, *value, next)? {
            return Ok(true);
        }
    }
    Ok(false)
}

/// Looks at the members of lists, until one is unsettled.
fn look_into(room: &Room, lists: &[u64], next: &mut IndexSet<u64>) -> Result<bool, Memory>
    ensures { IfOk result (λ found. Looks room.now (λ d. any_within room.now d lists.now) next.old.keys found next.new.keys) }
{
    for list in lists {
        if look_at_all(room, members_of(&room.heap, ListId(*list)), next)? {
            return Ok(true);
        }
    }
    Ok(false)
}

/// Whether a followed part of a value is unsettled.
pub fn is_open(room: &Room, value: Value) -> Result<bool, Memory>
    ensures { IfOk result (λ found. found ≡ is_open room.now (length room.now.heap.lists) value) }
{
    let mut lists = IndexSet::new(room.alloc);
    if look_at(room, value, &mut lists)? {
        return Ok(true);
    }
    let mut depth = room.heap.list_count();
    while depth > 0 && !lists.is_empty() {
        let mut next = IndexSet::new(room.alloc);
        if look_into(room, lists.as_slice(), &mut next)? {
            return Ok(true);
        }
        lists = next;
        depth -= 1;
    }
    Ok(false)
}
