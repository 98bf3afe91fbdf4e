//! Whether slots are made with what their makers know.

ghost use Rattle.std.specs.Prelude.{◌≡◌, ◌↔◌, [], List, IfOk, IsTrue};
ghost use Rattle.def_event.specs.Uses.{IsFirstFailing, Line};
ghost use Rattle.ev_known.specs.Knowing.{KnownStand};
ghost use Rattle.ev_links.specs.Chains.{PlanStands};
ghost use Rattle.ev_see_verdicts.specs.Judged.{SlotKnown, TellsSlots, ValueKnown};

use def_event::{Event, Shown};
use def_why::Refusal;
use ev_base::Memory;
use ev_known::{Activation, Knowledge};
use ev_links::{Plan, place_after, plan_of};
use ev_see_verdicts::uses::slot_unknown_at;
use std::alloc::Global;

/// Whether what a value names is known to an activation.
#[tactic(auto, unfolding(ev_see_verdicts::specs::Judged::ValueKnown))]
fn is_value_known(
    knowledge: &mut Knowledge,
    alloc: Global,
    activation: Activation,
    value: &Shown,
) -> Result<bool, Memory>
    ensures { (past : List Line) → KnownStand knowledge.old past → IfOk result (λ known. (IsTrue known ↔ ValueKnown past activation.at activation.number value.now) × KnownStand knowledge.new past) }
{
    match value {
        Shown::Name(name) => knowledge.knows(alloc, activation, name),
        _ => Ok(true),
    }
}

/// Whether a line makes no slot with what its maker does not know.
#[tactic(auto, unfolding(ev_see_verdicts::specs::Judged::made_with))]
fn is_slot_known(
    knowledge: &mut Knowledge,
    alloc: Global,
    at: u64,
    event: &Event,
) -> Result<bool, Memory>
    ensures { (past : List Line) → KnownStand knowledge.old past → IfOk result (λ known. (IsTrue known ↔ SlotKnown past (record { at = at; event = event.now })) × KnownStand knowledge.new past) }
{
    match event {
        Event::Slot(number, _, value) => {
            let number = *number;
            is_value_known(knowledge, alloc, Activation { at, number }, value)
        }
        _ => Ok(true),
    }
}

/// The first line that fails, where nothing is known yet.
fn first_by_known(
    alloc: Global,
    knowledge: &mut Knowledge,
    events: &[Event],
) -> Result<Option<u64>, Memory>
    ensures { KnownStand knowledge.old [] → IfOk result (λ answer. IsFirstFailing SlotKnown events.now answer) }
{
    let mut at = 0;
    for (index, event) in events.iter().enumerate() {
        at = place_after(at, event);
        if !is_slot_known(knowledge, alloc, at, event)? {
            return Ok(Some(index as u64 + 1));
        }
        knowledge.tell_line(alloc, at, event)?;
    }
    Ok(None)
}

/// The first line that fails, by a plan of the chains of the whole history.
fn first_by_plan(alloc: Global, plan: Plan, events: &[Event]) -> Result<Option<u64>, Memory>
    ensures { PlanStands plan → IfOk result (λ answer. IsFirstFailing SlotKnown events.now answer) }
{
    let mut knowledge = Knowledge::new(alloc, plan);
    first_by_known(alloc, &mut knowledge, events)
}

/// The first line that makes a slot with what its maker does not know.
fn first_unknown_slot(alloc: Global, events: &[Event]) -> Result<Option<u64>, Memory>
    ensures { IfOk result (λ answer. IsFirstFailing SlotKnown events.now answer) }
{
    let plan = plan_of(alloc, events)?;
    first_by_plan(alloc, plan, events)
}

/// What is told of the first slot that is made with what its maker does not know.
pub fn tell_slots(alloc: Global, events: &[Event]) -> Result<Option<Refusal>, Memory>
    ensures { IfOk result (λ told. TellsSlots events.now told) }
{
    match first_unknown_slot(alloc, events)? {
        Some(line) => Ok(slot_unknown_at(events, line)),
        None => Ok(None),
    }
}
