//! Matches that failed.

ghost use Rattle.std.specs.Prelude.{◌≡◌, option_map, slice_get};
ghost use Rattle.def_machine.specs.Free.{BoundNoun};
ghost use Rattle.ev_steps.specs.Steps.{bind_unmatched, no_match, not_matched, unmatched, unmatched_noun};
ghost use Rattle.ev_room.specs.Acts.{Binds, Extends, Gives, GivesIn};

use crate::binders::{Bindable, bound_nouns};
use ev_base::{ActId, NodeId, TextId, Value};
use ev_heap::Happened;
use ev_room::Program;
use ev_room::exit::Exit;
use ev_room::room::{Room, tell};
use ev_room::scope::{Binding, Bound, NO_GUARD, Scope};
use ev_room::slots::new_slot;

/// What the names of a failed match are bound to.
fn no_match() -> Value
    ensures { result ≡ no_match }
{
    Value::Broken(TextId(15))
}

/// What one name of a failed match stands for.
#[tactic(auto, using(ev_room::proofs::Exits::ends), unfolding(crate::specs::Steps::opened_steps))]
fn unmatched_noun(act: ActId, is_var: bool, missing: Value, room: &mut Room) -> Result<Bound, Exit>
    requires { missing ≡ no_match }
    ensures outcome { Gives result room.new (unmatched_noun act is_var room.old) }
{
    if !is_var {
        return Ok(Bound::Fixed {
            value: missing,
            guard: NO_GUARD,
        });
    }
    let told = missing;
    let slot = new_slot(NO_GUARD, missing, room)?;
    tell(room, Happened::Slot(act, slot, told))?;
    Ok(Bound::Slot(slot))
}

/// A name of a failed match is bound anew.
#[tactic(auto, using(ev_room::proofs::Exits::ends, ev_room::proofs::Fronts::itself_in_front, ev_room::proofs::Fronts::more_in_front, ev_room::proofs::Fronts::kept_in_front), unfolding(crate::specs::Steps::opened_steps))]
fn bind_unmatched(
    name: &Bindable,
    missing: Value,
    here: &mut Scope,
    room: &mut Room,
) -> Result<(), Exit>
    requires { missing ≡ no_match }
    ensures outcome { Binds result here.new room.new (bind_unmatched name.now here.old room.old) }
    ensures front { Extends here.old here.new }
{
    let bound = unmatched_noun(here.act, name.is_var, missing, room)?;
    let noun = name.noun.share()?;
    here.nouns.push(Binding { noun, bound })?;
    Ok(())
}

/// The name of that place, if there are so many.
fn name_at(names: &[Bindable], place: usize) -> Option<&Bindable>
    ensures { option_map (λ name. name.now) result ≡ slice_get names.now place }
{
    names.get(place)
}

/// The names of a failed match are bound anew.
#[tactic(auto, using(crate::proofs::Binding::unmatched_goes, crate::proofs::Binding::unmatched_ends, crate::proofs::Binding::unmatched_done, crate::proofs::Binding::unmatched_all, crate::proofs::Binding::below_count, ev_room::proofs::Fronts::itself_in_front, ev_room::proofs::Fronts::in_front))]
fn unmatched(names: &[Bindable], here: &mut Scope, room: &mut Room) -> Result<(), Exit>
    ensures outcome { Binds result here.new room.new (unmatched names.now here.old room.old) }
    ensures front { Extends here.old here.new }
{
    let missing = no_match();
    let mut place = 0;
    while let Some(name) = name_at(names, place) {
        let by = missing;
        bind_unmatched(name, by, here, room)?;
        place += 1;
    }
    Ok(())
}

/// A match has failed with this value.
#[tactic(auto, using(ev_room::proofs::Exits::ends, ev_room::proofs::Fronts::itself_in_front), unfolding(crate::specs::Steps::opened_steps))]
pub fn not_matched(
    program: &Program,
    pattern: NodeId,
    value: Value,
    here: &mut Scope,
    room: &mut Room,
) -> Result<Value, Exit>
    ensures outcome { GivesIn result here.new room.new (not_matched program.now pattern here.old value room.old) }
    ensures front { Extends here.old here.new }
{
    tell(room, Happened::Got(here.act, value))?;
    let names = bound_nouns(room.alloc, program, pattern)?;
    unmatched(names.as_slice(), here, room)?;
    Ok(Value::Bool(false))
}
