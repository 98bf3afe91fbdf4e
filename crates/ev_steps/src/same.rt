//! Whether two values are the same: data by what it says, lists by their members, names of things by their numbers. Pairs of lists are
//! compared layer by layer, each once in a layer.

ghost use Rattle.std.specs.Prelude.{◌≡◌, IfOk, length, suc};
ghost use Rattle.ev_room.specs.Acts.{Gives};
ghost use Rattle.ev_steps.specs.Layers.{Compares, all_within, pair_of};
ghost use Rattle.ev_steps.specs.Same.{all_same, is_same, same_ever};

use crate::open::is_open;
use crate::parts::same_plain;
use ev_base::{ListId, Memory, TextId, Value};
use ev_room::data::members_of;
use ev_room::exit::Exit;
use ev_room::room::Room;
use indexmap::IndexSet;

/// The text `not settled`, among the first of a heap.
const NOT_SETTLED: TextId = TextId(43);

/// Two lists that are to be the same.
#[derive(Clone, Copy, PartialEq, Eq, Hash)]
struct Pair {
    one: u64,
    other: u64,
}

/// The pair of lists that two values are.
fn pair_of(x: Value, y: Value) -> Option<Pair>
    ensures { result ≡ pair_of x y }
{
    match x {
        Value::List(one) => match y {
            Value::List(other) => Some(Pair {
                one: one.0,
                other: other.0,
            }),
            _ => None,
        },
        _ => None,
    }
}

/// Compares two values: false where they are not the same. Two lists are to be compared in the next layer.
fn compare(room: &Room, x: Value, y: Value, next: &mut IndexSet<Pair>) -> Result<bool, Memory>
    ensures { IfOk result (λ same. Compares room.now (λ d. is_same room.now d x y) next.old.keys same next.new.keys) }
{
    let first = room.refs.deref(x);
    let second = room.refs.deref(y);
    match pair_of(first, second) {
        Some(pair) => {
            next.insert_full(pair)?;
            Ok(true)
        }
        None => Ok(same_plain(&room.heap, &first, &second)),
    }
}

/// Compares the members of two lists of one length, until two are not the same.
fn compare_each(
    room: &Room,
    xs: &[Value],
    ys: &[Value],
    next: &mut IndexSet<Pair>,
) -> Result<bool, Memory>
    requires { length xs.now ≡ length ys.now }
    ensures { IfOk result (λ same. Compares room.now (λ d. all_same (λ v w. is_same room.now d v w) xs.now ys.now) next.old.keys same next.new.keys) }
{
    for index in 0..xs.len() {
        if !compare(room, xs[index], ys[index], next)? {
            return Ok(false);
        }
    }
    Ok(true)
}

/// Compares the members of two lists.
fn compare_all(
    room: &Room,
    xs: &[Value],
    ys: &[Value],
    next: &mut IndexSet<Pair>,
) -> Result<bool, Memory>
    ensures { IfOk result (λ same. Compares room.now (λ d. all_same (λ v w. is_same room.now d v w) xs.now ys.now) next.old.keys same next.new.keys) }
{
    if xs.len() != ys.len() {
        return Ok(false);
    }
    compare_each(room, xs, ys, next)
}

/// Compares the members of the lists of each pair, until two are not the same.
fn compare_layer(room: &Room, pairs: &[Pair], next: &mut IndexSet<Pair>) -> Result<bool, Memory>
    ensures { IfOk result (λ same. Compares room.now (λ d. all_within room.now d pairs.now) next.old.keys same next.new.keys) }
{
    for pair in pairs {
        let xs = members_of(&room.heap, ListId(pair.one));
        let ys = members_of(&room.heap, ListId(pair.other));
        if !compare_all(room, xs, ys, next)? {
            return Ok(false);
        }
    }
    Ok(true)
}

/// Whether two values are the same, each followed, with their parts.
fn is_same(room: &Room, x: Value, y: Value) -> Result<bool, Memory>
    ensures { IfOk result (λ same. same ≡ is_same room.now (length room.now.heap.lists) x y) }
{
    let mut pairs = IndexSet::new(room.alloc);
    if !compare(room, x, y, &mut pairs)? {
        return Ok(false);
    }
    let mut depth = room.heap.list_count();
    while !pairs.is_empty() {
        if depth == 0 {
            return Ok(false);
        }
        let mut next = IndexSet::new(room.alloc);
        if !compare_layer(room, pairs.as_slice(), &mut next)? {
            return Ok(false);
        }
        pairs = next;
        depth -= 1;
    }
    Ok(true)
}

/// Whether two values are the same. Where a part of either is unsettled, this is not known yet, and thrown.
#[tactic(auto, unfolding(crate::specs::Same::same_ever, crate::specs::Same::same_unless, ev_room::specs::Acts::give, ev_room::specs::Acts::fail))]
pub fn same_ever(room: &Room, x: &Value, y: &Value) -> Result<Value, Exit>
    ensures outcome { Gives result room.now (same_ever x.now y.now room.now) }
{
    if is_open(room, *x)? || is_open(room, *y)? {
        return Err(Exit::Thrown(NOT_SETTLED));
    }
    Ok(Value::Bool(is_same(room, *x, *y)?))
}
