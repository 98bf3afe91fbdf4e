//! The first line that uses, or gives back, what is not known.

ghost use Rattle.std.specs.Prelude.{[], IfOk};
ghost use Rattle.def_event.specs.Uses.{IsFirstFailing};
ghost use Rattle.ev_known.specs.Knowing.{KnownStand};
ghost use Rattle.ev_links.specs.Chains.{PlanStands};
ghost use Rattle.ev_uses.specs.Kept.{KeptStand};
ghost use Rattle.ev_uses.specs.Using.{IsOfKnown};

use crate::calls::Calls;
use crate::kept::{is_of_known, tell_line};
use def_event::Event;
use ev_base::Memory;
use ev_known::Knowledge;
use ev_links::{Plan, place_after, plan_of};
use std::alloc::Global;

/// The first line that fails, where nothing is kept yet.
fn first_failing(
    alloc: Global,
    knowledge: &mut Knowledge,
    calls: &mut Calls,
    events: &[Event],
) -> Result<Option<u64>, Memory>
    ensures { KeptStand knowledge.old calls.old [] → IfOk result (λ answer. IsFirstFailing IsOfKnown events.now answer) }
{
    let mut at = 0;
    for (index, event) in events.iter().enumerate() {
        at = place_after(at, event);
        if !is_of_known(knowledge, calls, alloc, at, event)? {
            return Ok(Some(index as u64 + 1));
        }
        tell_line(knowledge, calls, alloc, at, event)?;
    }
    Ok(None)
}

/// The first line that fails, where nothing is known yet.
fn first_by_known(
    alloc: Global,
    knowledge: &mut Knowledge,
    events: &[Event],
) -> Result<Option<u64>, Memory>
    ensures { KnownStand knowledge.old [] → IfOk result (λ answer. IsFirstFailing IsOfKnown events.now answer) }
{
    let mut calls = Calls::new(alloc);
    first_failing(alloc, knowledge, &mut calls, events)
}

/// The first line that fails, by a plan of the chains of the whole history.
fn first_by_plan(alloc: Global, plan: Plan, events: &[Event]) -> Result<Option<u64>, Memory>
    ensures { PlanStands plan → IfOk result (λ answer. IsFirstFailing IsOfKnown events.now answer) }
{
    let mut knowledge = Knowledge::new(alloc, plan);
    first_by_known(alloc, &mut knowledge, events)
}

/// The first line of a history, counted from 1, that uses a name that its activation does not know by the lines before it and
/// that the line does not make, or gives back a name that is not known to the activation that the call began, else to the
/// caller, and that no audition gives as a guard.
pub fn first_unknown(alloc: Global, events: &[Event]) -> Result<Option<u64>, Memory>
    ensures { IfOk result (λ answer. IsFirstFailing IsOfKnown events.now answer) }
{
    let plan = plan_of(alloc, events)?;
    first_by_plan(alloc, plan, events)
}
