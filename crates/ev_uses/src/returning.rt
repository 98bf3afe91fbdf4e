//! Whether what a call gives back is known.

ghost use Rattle.std.specs.Prelude.{◌≡◌, ◌↔◌, List, IfOk, IsTrue, unwrap_or};
ghost use Rattle.def_event.specs.Uses.{BackKnown, GivesBack, Line, open_calls};
ghost use Rattle.ev_known.specs.Knowing.{KnownStand};
ghost use Rattle.ev_uses.specs.Calls.{CallsStand, GivesBackValue};

use crate::calls::Calls;
use def_event::{Event, Shown};
use ev_base::{Memory, Name};
use ev_known::{Activation, Knowledge};
use std::alloc::Global;

/// The number that there is, or the other one.
fn number_or(number: Option<u64>, other: u64) -> u64
    ensures { result ≡ unwrap_or number other }
{
    match number {
        Some(number) => number,
        None => other,
    }
}

/// Whether an activation may be given back a name: it is known to the activation that its innermost open call began, else to
/// itself, or an audition gave it as a guard.
fn is_name_given_back(
    knowledge: &mut Knowledge,
    calls: &Calls,
    alloc: Global,
    activation: Activation,
    name: &Name,
) -> Result<bool, Memory>
    ensures { (past : List Line) → KnownStand knowledge.old past → CallsStand calls.now past → IfOk result (λ given. (IsTrue given ↔ GivesBack past activation.at activation.number name.now (open_calls past activation.at activation.number)) × KnownStand knowledge.new past) }
{
    let Some(call) = calls.innermost(activation) else {
        return knowledge.knows(alloc, activation, name);
    };
    if call.asks_audition {
        return Ok(true);
    }
    let at = activation.at;
    let number = number_or(call.begun, activation.number);
    knowledge.knows(alloc, Activation { at, number }, name)
}

/// Whether an activation may be given back a value.
fn is_given_back(
    knowledge: &mut Knowledge,
    calls: &Calls,
    alloc: Global,
    activation: Activation,
    value: &Shown,
) -> Result<bool, Memory>
    ensures { (past : List Line) → KnownStand knowledge.old past → CallsStand calls.now past → IfOk result (λ given. (IsTrue given ↔ GivesBackValue past activation.at activation.number value.now) × KnownStand knowledge.new past) }
{
    match value {
        Shown::Name(name) => is_name_given_back(knowledge, calls, alloc, activation, name),
        _ => Ok(true),
    }
}

/// Whether a line at a place gives back only what is known by the lines before it.
pub fn gives_back_known(
    knowledge: &mut Knowledge,
    calls: &Calls,
    alloc: Global,
    at: u64,
    event: &Event,
) -> Result<bool, Memory>
    ensures { (past : List Line) → KnownStand knowledge.old past → CallsStand calls.now past → IfOk result (λ known. (IsTrue known ↔ BackKnown past (record { at = at; event = event.now })) × KnownStand knowledge.new past) }
{
    match event {
        Event::Back(number, value) => {
            let number = *number;
            is_given_back(knowledge, calls, alloc, Activation { at, number }, value)
        }
        _ => Ok(true),
    }
}
