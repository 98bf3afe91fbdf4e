//! Values that stand in a heap, and the texts and lists that evaluation makes.

ghost use Rattle.std.specs.Prelude.{◌≡◌, All, IfOk, true};
ghost use Rattle.std.specs.Bool.{OnTrue};
ghost use Rattle.ev_heap.specs.Contents.{IsWeighable, is_light};
ghost use Rattle.ev_prims.specs.Answers.{members_at};
ghost use Rattle.ev_prims.specs.Reading.{text_in};
ghost use Rattle.ev_room.specs.Sound.{are_there, is_there};
ghost use Rattle.ev_room.specs.Acts.{Gives, call_there, keep_list, list_told, make_list, new_list, problem_id, spell, store, text_value, thrown_id, write_text};

use crate::exit::Exit;
use crate::room::{Room, spend, tell_list};
use ev_base::{ActId, ListId, Memory, Seq, Text, TextId, Value};
use ev_heap::{Heap, ListFault};
use ev_integer::NumFault;
use ev_prims::Problem;
use std::alloc::Global;

/// The greatest number of bytes of a text that a text answers.
const MOST_BYTES: usize = 65535;

/// The text of a problem, among the first of a heap.
pub fn problem_id(problem: Problem) -> TextId
    ensures { result ≡ problem_id problem }
{
    match problem {
        Problem::Arithmetic(NumFault::Overflow) => TextId(0),
        Problem::NotInt => TextId(1),
        Problem::NoMethod => TextId(2),
        Problem::Arithmetic(NumFault::ZeroDivisor) => TextId(3),
        Problem::Arithmetic(NumFault::NegativePower) => TextId(4),
        Problem::NotChar => TextId(5),
        Problem::NotBoolean => TextId(6),
        Problem::NotText => TextId(7),
        Problem::NotList => TextId(8),
        Problem::OutOfRange => TextId(9),
        Problem::BadArgument => TextId(10),
        Problem::NotComparable => TextId(11),
        Problem::TooHeavy => TextId(12),
        Problem::Unthrowable => TextId(13),
        Problem::DeadEjector => TextId(14),
    }
}

/// The problem that is thrown where a value is to be thrown: the text itself.
pub fn thrown_id(value: Value) -> TextId
    ensures { result ≡ thrown_id value }
{
    match value {
        Value::Text(id) => id,
        _ => problem_id(Problem::Unthrowable),
    }
}

/// Whether a value stands in a heap.
#[tactic(auto, using(crate::proofs::There::weighable))]
pub fn is_there(heap: &Heap, value: Value) -> bool
    ensures is { result ≡ is_there heap.now value }
    ensures weighable { OnTrue result (IsWeighable heap.now value) }
{
    match value {
        Value::Text(id) | Value::Broken(id) => id.0 < heap.text_count(),
        Value::List(id) => id.0 < heap.list_count(),
        _ => true,
    }
}

/// The same values.
pub fn copied_values(alloc: Global, values: &[Value]) -> Result<Seq<Value>, Memory>
    ensures { IfOk result (λ copy. copy ≡ values.now) }
{
    Ok(Seq::of(Vec::from_slice(alloc, values)?))
}

/// Whether values stand in a heap.
fn each_there(heap: &Heap, values: &[Value]) -> bool
    ensures { result ≡ are_there heap.now values.now }
{
    for value in values {
        if !is_there(heap, *value) {
            return false;
        }
    }
    true
}

/// Whether values stand in a heap, and so may be weighed.
fn are_there(heap: &Heap, values: &[Value]) -> bool
    ensures is { result ≡ are_there heap.now values.now }
    ensures weighable { OnTrue result (All (IsWeighable heap.now) values.now) }
{
    each_there(heap, values)
}

/// Whether the receiver and the arguments of a call stand in a heap.
#[tactic(auto, unfolding(crate::specs::Acts::call_there))]
pub fn call_there(heap: &Heap, receiver: Value, args: &[Value]) -> bool
    ensures is { result ≡ call_there heap.now receiver args.now }
    ensures receiver { OnTrue result (IsWeighable heap.now receiver) }
    ensures args { OnTrue result (All (IsWeighable heap.now) args.now) }
{
    is_there(heap, receiver) && are_there(heap, args)
}

/// The text of that number, and the empty one where there is none.
pub fn text_of(heap: &Heap, id: TextId) -> &str
    ensures { result.now ≡ text_in heap.now id }
{
    match heap.find_text(id) {
        Some(text) => text,
        None => "",
    }
}

/// The members of the list of that number, and none where there is none.
pub fn members_of(heap: &Heap, list: ListId) -> &[Value]
    ensures { result.now ≡ members_at heap.now list }
{
    if list.0 < heap.list_count() {
        heap.members(list)
    } else {
        &[]
    }
}

/// Keeps a text, and gives it as a value.
#[tactic(auto, unfolding(crate::specs::Acts::opened_acts))]
pub fn text_value(text: &str, room: &mut Room) -> Result<Value, Exit>
    ensures outcome { Gives result room.new (text_value text.now room.old) }
{
    match room.heap.make_text(text) {
        Ok(id) => Ok(Value::Text(id)),
        Err(Memory) => Err(Exit::Memory),
    }
}

/// Keeps a text that others may hold too, and gives it as a value.
#[tactic(auto, unfolding(crate::specs::Acts::opened_acts))]
pub fn text_kept(text: &Text, room: &mut Room) -> Result<Value, Exit>
    ensures outcome { Gives result room.new (text_value text.now room.old) }
{
    let text = text.share()?;
    match room.heap.keep_text(text) {
        Ok(id) => Ok(Value::Text(id)),
        Err(Memory) => Err(Exit::Memory),
    }
}

/// A text that is not too long, which takes a unit of fuel for each byte.
#[tactic(auto, using(crate::proofs::Exits::ends), unfolding(crate::specs::Acts::opened_acts))]
fn spell(text: &str, room: &mut Room) -> Result<Value, Exit>
    ensures outcome { Gives result room.new (spell text.now room.old) }
{
    spend(room, text.len() as u64)?;
    text_value(text, room)
}

/// A text that a text answers, which takes a unit of fuel for each byte.
#[tactic(auto, using(crate::proofs::There::written, crate::proofs::There::heavy_text))]
pub fn write_text(text: &str, room: &mut Room) -> Result<Value, Exit>
    ensures outcome { Gives result room.new (write_text text.now room.old) }
{
    if text.len() > MOST_BYTES {
        return Err(Exit::Thrown(problem_id(Problem::TooHeavy)));
    }
    spell(text, room)
}

/// Keeps a list that is within the limits.
#[tactic(auto, unfolding(crate::specs::Acts::opened_acts))]
fn new_list(members: &[Value], room: &mut Room) -> Result<ListId, Exit>
    requires there { All (IsWeighable room.old.heap) members.now }
    requires light { is_light room.old.heap members.now ≡ true }
    ensures outcome { Gives result room.new (new_list members.now room.old) }
{
    match room.heap.make_list(members) {
        Ok(id) => Ok(id),
        Err(ListFault::TooHeavy) | Err(ListFault::Memory) => Err(Exit::Memory),
    }
}

/// Tells that a list was made.
#[tactic(auto, using(crate::proofs::Exits::ends), unfolding(crate::specs::Acts::opened_acts))]
fn list_told(act: ActId, members: &[Value], list: ListId, room: &mut Room) -> Result<Value, Exit>
    ensures outcome { Gives result room.new (list_told act members.now list room.old) }
{
    tell_list(act, list, members, room)?;
    Ok(Value::List(list))
}

/// Keeps a list that is within the limits, and tells it.
#[tactic(auto, using(crate::proofs::Exits::ends), unfolding(crate::specs::Acts::opened_acts))]
fn keep_list(act: ActId, members: &[Value], room: &mut Room) -> Result<Value, Exit>
    requires there { All (IsWeighable room.old.heap) members.now }
    requires light { is_light room.old.heap members.now ≡ true }
    ensures outcome { Gives result room.new (keep_list act members.now room.old) }
{
    let list = new_list(members, room)?;
    list_told(act, members, list, room)
}

/// Keeps a list that is within the limits, which takes a unit of fuel for each member.
#[tactic(auto, using(crate::proofs::Exits::ends), unfolding(crate::specs::Acts::opened_acts))]
fn store(act: ActId, members: &[Value], room: &mut Room) -> Result<Value, Exit>
    requires there { All (IsWeighable room.old.heap) members.now }
    requires light { is_light room.old.heap members.now ≡ true }
    ensures outcome { Gives result room.new (store act members.now room.old) }
{
    spend(room, members.len() as u64)?;
    keep_list(act, members, room)
}

/// A list that an activation makes: its limits are tested, and then it takes a unit of fuel for each member.
#[tactic(auto, using(crate::proofs::There::made_none, crate::proofs::There::made_heavy, crate::proofs::There::made_light))]
pub fn make_list(act: ActId, members: &[Value], room: &mut Room) -> Result<Value, Exit>
    ensures outcome { Gives result room.new (make_list act members.now room.old) }
{
    if !are_there(&room.heap, members) {
        return Err(Exit::Astray);
    }
    if !room.heap.fits(members) {
        return Err(Exit::Thrown(problem_id(Problem::TooHeavy)));
    }
    store(act, members, room)
}
