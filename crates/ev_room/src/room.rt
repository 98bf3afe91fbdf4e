//! What evaluation does with fuel, lines and activations in the inside of a vat.

ghost use Rattle.std.specs.Prelude.{◌≡◌};
ghost use Rattle.ev_heap.specs.declared.happened.Happened.TheVariants as event;
ghost use Rattle.ev_room.specs.Acts.{Gives, new_activation, spend, tell};

use crate::exit::Exit;
use ev_base::{ActId, ListId, Memory, Value, Word};
use ev_heap::Happened;

/// Where evaluation works: the inside of a vat, of which it changes the heap, the fuel and what happened.
pub use ev_pass::Interior as Room;

/// Spends so many units of fuel, or none where they are above what is left.
#[tactic(auto, unfolding(crate::specs::Acts::opened_acts))]
#[inline(always)]
pub fn spend(room: &mut Room, units: u64) -> Result<(), Exit>
    ensures outcome { Gives result room.new (spend units room.old) }
    ensures heap { room.new.heap ≡ room.old.heap }
{
    if room.micro.spend(units) {
        Ok(())
    } else {
        Err(Exit::Fuel)
    }
}

/// Tells what happened.
#[tactic(auto, unfolding(crate::specs::Acts::opened_acts))]
pub fn tell(room: &mut Room, event: Happened) -> Result<(), Exit>
    ensures outcome { Gives result room.new (tell event room.old) }
{
    match room.micro.push(event) {
        Ok(()) => Ok(()),
        Err(Memory) => Err(Exit::Memory),
    }
}

/// Tells a call, with the activation that it begins.
#[tactic(auto, unfolding(crate::specs::Acts::opened_acts))]
#[inline(always)]
pub fn tell_call(
    act: ActId,
    target: Value,
    verb: &Word,
    args: &[Value],
    begun: Option<ActId>,
    room: &mut Room,
) -> Result<(), Exit>
    ensures outcome { Gives result room.new (tell (event.Call act target verb.now args.now begun) room.old) }
{
    match room.micro.push_call(act, target, verb, args, begun) {
        Ok(()) => Ok(()),
        Err(Memory) => Err(Exit::Memory),
    }
}

/// Tells that a list was made.
#[tactic(auto, unfolding(crate::specs::Acts::opened_acts))]
pub fn tell_list(act: ActId, list: ListId, members: &[Value], room: &mut Room) -> Result<(), Exit>
    ensures outcome { Gives result room.new (tell (event.List act list members.now) room.old) }
{
    match room.micro.push_list(act, list, members) {
        Ok(()) => Ok(()),
        Err(Memory) => Err(Exit::Memory),
    }
}

/// Begins an activation, which runs the code of that receiver.
#[tactic(auto, unfolding(crate::specs::Acts::opened_acts))]
pub fn new_activation(receiver: Value, room: &mut Room) -> Result<ActId, Exit>
    ensures outcome { Gives result room.new (new_activation receiver room.old) }
{
    match room.heap.start_activation(receiver) {
        Ok(act) => Ok(act),
        Err(Memory) => Err(Exit::Memory),
    }
}
