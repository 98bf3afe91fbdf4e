//! Var slots.

ghost use Rattle.std.specs.Prelude.{◌≡◌, ℕ, ◌<◌, length, option_map, slice_get};
ghost use Rattle.ev_room.specs.Acts.{Gives, new_slot, read_slot, slot_read, write_slot, write_told};

use crate::exit::Exit;
use crate::room::{Room, tell};
use ev_base::{ActId, Memory, SlotId, Value};
use ev_heap::{GuardKind, Happened, Heap};

/// Makes a var slot of this guard.
#[tactic(auto, unfolding(crate::specs::Acts::opened_acts))]
pub fn new_slot(guard: GuardKind, value: Value, room: &mut Room) -> Result<SlotId, Exit>
    ensures outcome { Gives result room.new (new_slot guard value room.old) }
{
    match room.heap.make_slot(guard, value) {
        Ok(slot) => Ok(slot),
        Err(Memory) => Err(Exit::Memory),
    }
}

/// Tells that a slot with a value was read.
#[tactic(auto, using(crate::proofs::Exits::ends), unfolding(crate::specs::Acts::opened_acts))]
#[inline(always)]
fn slot_read(act: ActId, slot: SlotId, value: Value, room: &mut Room) -> Result<Value, Exit>
    ensures outcome { Gives result room.new (slot_read act slot value room.old) }
{
    let told = value;
    tell(room, Happened::Read(act, slot, told))?;
    Ok(value)
}

/// The value of a slot.
#[tactic(auto, using(crate::proofs::Cells::read_goes, crate::proofs::Cells::read_astray))]
#[inline(always)]
pub fn read_slot(act: ActId, slot: SlotId, room: &mut Room) -> Result<Value, Exit>
    ensures outcome { Gives result room.new (read_slot act slot room.old) }
{
    if slot.0 >= room.heap.slot_count() {
        return Err(Exit::Astray);
    }
    let value = room.heap.read(slot);
    slot_read(act, slot, value, room)
}

/// Tells that a slot was written.
#[tactic(auto, using(crate::proofs::Exits::ends), unfolding(crate::specs::Acts::opened_acts))]
fn write_told(act: ActId, slot: SlotId, value: Value, room: &mut Room) -> Result<Value, Exit>
    ensures outcome { Gives result room.new (write_told act slot value room.old) }
{
    let told = value;
    tell(room, Happened::Wrote(act, slot, told))?;
    Ok(value)
}

/// Writes a slot that the heap holds.
#[tactic(auto, using(crate::proofs::Cells::write_goes))]
fn write_cell(slot: SlotId, value: Value, room: &mut Room)
    requires { slot < length room.old.heap.slots }
    ensures outcome { (act : ℕ) → write_slot act slot value room.old ≡ write_told act slot value room.new }
{
    room.heap.write(slot, value);
}

/// Writes a slot, whatever its guard. Where the heap holds no such slot, it is told alone.
#[tactic(auto, using(crate::proofs::Cells::write_past))]
pub fn write_slot(act: ActId, slot: SlotId, value: Value, room: &mut Room) -> Result<Value, Exit>
    ensures outcome { Gives result room.new (write_slot act slot value room.old) }
{
    if slot.0 >= room.heap.slot_count() {
        return write_told(act, slot, value, room);
    }
    let kept = value;
    write_cell(slot, kept, room);
    write_told(act, slot, value, room)
}

/// The guard of a slot, if the heap holds it.
#[tactic(auto, using(crate::proofs::Cells::guard_stands, crate::proofs::Cells::no_guard_past))]
pub fn guard_of(heap: &Heap, slot: SlotId) -> Option<GuardKind>
    ensures { result ≡ option_map (λ cell. cell.guard) (slice_get heap.now.slots slot) }
{
    if slot.0 >= heap.slot_count() {
        return None;
    }
    Some(heap.guard(slot))
}
