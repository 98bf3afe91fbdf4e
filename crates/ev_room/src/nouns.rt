//! Reading what nouns stand for.

ghost use Rattle.std.specs.Prelude.{◌≡◌};
ghost use Rattle.ev_base.specs.SafeScope.{safe_value};
ghost use Rattle.ev_room.specs.Acts.{Answers, Gives, read_bound, read_held, safe_found};

use crate::exit::Exit;
use crate::room::Room;
use crate::scope::Bound;
use crate::slots::read_slot;
use ev_base::{ActId, Value, safe_value};

/// The value of a noun of the safe scope.
#[tactic(auto, unfolding(crate::specs::Acts::opened_acts))]
fn safe_found(noun: &str) -> Result<Value, Exit>
    ensures { Answers result (safe_found (safe_value noun.now)) }
{
    match safe_value(noun) {
        None => Err(Exit::Astray),
        Some(value) => Ok(value),
    }
}

/// The value of a noun that is bound.
#[tactic(auto, using(crate::proofs::Exits::ends), unfolding(crate::specs::Acts::opened_acts))]
#[inline(always)]
fn read_held(act: ActId, bound: Bound, room: &mut Room) -> Result<Value, Exit>
    ensures outcome { Gives result room.new (read_held act bound room.old) }
{
    match bound {
        Bound::Fixed { value, .. } => Ok(value),
        Bound::Slot(slot) => read_slot(act, slot, room),
    }
}

/// The value of a noun, by what it is bound to.
#[tactic(auto, using(crate::proofs::Exits::ends), unfolding(crate::specs::Acts::opened_acts))]
#[inline(always)]
pub fn read_bound(
    act: ActId,
    bound: Option<Bound>,
    noun: &str,
    room: &mut Room,
) -> Result<Value, Exit>
    ensures outcome { Gives result room.new (read_bound act bound noun.now room.old) }
{
    match bound {
        Some(bound) => read_held(act, bound, room),
        None => safe_found(noun),
    }
}
