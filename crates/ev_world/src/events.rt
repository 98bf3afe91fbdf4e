//! The run of a script, with its events in place of its text.

ghost use Rattle.std.specs.Prelude.{◌≡◌, ℕ, IfOk, List, length};
ghost use Rattle.def_event.specs.declared.event.Event.{Event as Told};
ghost use Rattle.def_run.specs.Numbers.{run};
ghost use Rattle.ev_script.specs.Rules.{IsAdmitted};
ghost use Rattle.ev_step_text.specs.Accounts.{IsAccount};
ghost use Rattle.ev_world.specs.Events.{EndsAs, events_of};
ghost use Rattle.ev_world.specs.Running.{end_of, script_of};
ghost use Rattle.def_run.specs.Steady.{RunsSteadily};

use crate::run::{RunEnd, names_of};
use crate::world::World;
use ev_base::{Limits, Memory};
use ev_event::History;
use ev_reader::Scoped;
use ev_resident::VatStop;
use ev_script::Script;
use ev_step_text::Account;
use std::alloc::Global;

/// How a run ended, and its events. One that stopped has those of the steps before.
#[derive(Drop)]
pub struct Ran {
    pub end: RunEnd,
    pub history: History,
}

/// The end of a run of which that step stopped.
fn end_at(stop: VatStop, step: u64) -> Result<RunEnd, Memory>
    ensures { EndsAs stop step result }
{
    match stop {
        VatStop::Fuel => Ok(RunEnd::FuelSpent(step)),
        VatStop::Deep => Ok(RunEnd::TooDeep(step)),
        VatStop::WordRepeated(first, second) => Ok(RunEnd::WordRepeated(first, second)),
        VatStop::Astray => Ok(RunEnd::Astray(step)),
        VatStop::Memory => Err(Memory),
    }
}

/// The events of an account that holds events. One that holds text is answered as want of memory.
fn events_in(account: Account) -> Result<History, Memory>
    ensures { IfOk result (λ events. (names : List (List ℕ)) (es : List Told) → IsAccount names account es → events ≡ es) }
{
    match account.into_events() {
        Some(events) => Ok(events),
        None => Err(Memory),
    }
}

/// What was told up to a stop.
fn history_of(world: World) -> Result<History, Memory>
    ensures { IfOk result (λ events. (names : List (List ℕ)) (es : List Told) → IsAccount names world.history es → events ≡ es) }
{
    let World { history, .. } = world;
    events_in(history)
}

/// Runs a script as `write_run` does, and gives the events of which the text without frames has a line each, in order.
///
/// Memory grows with what is told and held.
pub fn run_events(
    alloc: Global,
    script: &Script,
    programs: Vec<Scoped>,
    limits: Limits,
) -> Result<Ran, Memory>
    requires admitted { IsAdmitted script.now }
    requires programs { length programs.items ≡ length script.now.vats }
    ensures events { IfOk result (λ ran. RunsSteadily (script_of script.now programs.items limits.depth)
        → ran.history ≡ events_of (run (script_of script.now programs.items limits.depth))) }
    ensures end { IfOk result (λ ran. RunsSteadily (script_of script.now programs.items limits.depth)
        → ran.end ≡ end_of (run (script_of script.now programs.items limits.depth))) }
{
    let vats = script.vats.as_slice();
    let account = Account::of_events(alloc, names_of(alloc, vats)?);
    let mut world = World::start(alloc, script, programs, limits, false, account)?;
    if let Err(halted) = world.go_on(alloc, vats.len(), script.schedule.as_slice()) {
        let end = end_at(halted.stop, halted.step)?;
        return Ok(Ran {
            end,
            history: history_of(world)?,
        });
    }
    let history = events_in(world.close(alloc)?)?;
    Ok(Ran {
        end: RunEnd::Done,
        history,
    })
}
