//! The fuel that is left, and what happened in a step.

ghost use Rattle.std.specs.Prelude.{◌≡◌, ◌-◌, ◌≤◌, ◌↔◌, ◌++◌, ◌∷◌, [], IsTrue, OnOk};
ghost use Rattle.std.specs.Bool.{OnFalse, OnTrue};
ghost use Rattle.ev_heap.specs.declared.happened.Happened.TheVariants as event;

use crate::Happened;
use crate::lines::Lines;
use ev_base::{ActId, ListId, Memory, Value, Word};
use std::alloc::Global;

/// The fuel left for the run, in units, and what happened in this step, in order.
pub struct Micro {
    pub fuel: u32,
    pub events: Lines,
}

impl Drop for Micro {
    fn drop(self) {
        let Self {
            fuel: _,
            events: _events,
        } = self;
    }
}

impl Micro {
    /// So much fuel, and nothing that happened.
    pub fn new(alloc: Global, fuel: u32) -> Micro
        ensures { result ≡ record { fuel = fuel; events = [] } }
    {
        Micro {
            fuel,
            events: Lines::new(alloc),
        }
    }

    /// So much fuel, and nothing that happened: the room and the verbs of the step before are kept.
    pub fn reset(&mut self, fuel: u32)
        ensures { self.new ≡ record { fuel = fuel; events = [] } }
    {
        self.fuel = fuel;
        self.events.clear();
    }

    /// Spends so many units, or none and answers false where they are above the fuel left.
    #[inline(always)]
    pub fn spend(&mut self, units: u64) -> bool
        ensures enough { IsTrue result ↔ (units ≤ self.old.fuel) }
        ensures spent { OnTrue result (self.new ≡ record self.old { fuel = self.old.fuel - units }) }
        ensures kept { OnFalse result (self.new ≡ self.old) }
    {
        if units > u64::from(self.fuel) {
            return false;
        }
        self.fuel -= units as u32;
        true
    }

    /// Adds what happened.
    pub fn push(&mut self, event: Happened) -> Result<(), Memory>
        ensures ok { OnOk result (self.new ≡ record self.old { events = self.old.events ++ event ∷ [] }) }
    {
        self.events.push(event)
    }

    /// Adds a call.
    #[inline(always)]
    pub fn push_call(
        &mut self,
        activation: ActId,
        target: Value,
        verb: &Word,
        args: &[Value],
        begun: Option<ActId>,
    ) -> Result<(), Memory>
        ensures ok { OnOk result (self.new ≡ record self.old { events = self.old.events ++ event.Call activation target verb.now args.now begun ∷ [] }) }
    {
        self.events.call(activation, target, verb, args, begun)
    }

    /// Adds that a list was made.
    pub fn push_list(
        &mut self,
        activation: ActId,
        list: ListId,
        members: &[Value],
    ) -> Result<(), Memory>
        ensures ok { OnOk result (self.new ≡ record self.old { events = self.old.events ++ event.List activation list members.now ∷ [] }) }
    {
        self.events.list(activation, list, members)
    }
}
