//! The open calls of all activations.

ghost use Rattle.std.specs.Prelude.{◌≡◌, ◌∷◌, [], ◌↔◌, drop, slice_get, List, IfOk, IsTrue, OnOk};
ghost use Rattle.def_event.specs.Uses.{AsksAudition, Line};
ghost use Rattle.ev_known.specs.Knowing.{KnownStand};
ghost use Rattle.ev_uses.specs.Calls.{CallsAfter, CallsStand, Closes, HasStack, Opens, asked_name, stack};

use crate::stack::{OpenedCall, Stack};
use def_event::{Called, Event, Shown};
use ev_base::{Memory, Name};
use ev_known::{Activation, Knowledge};
use indexmap::IndexMap;
use std::alloc::Global;
use std::marker::Model;

/// The open calls of each activation. Contracts see the stacks, each with its activation.
pub struct Calls {
    stacks: IndexMap<Activation, Stack>,
}

impl Drop for Calls {
    fn drop(self) {
        let Self { stacks: _stacks } = self;
    }
}

impl Model for Calls {
    ghost use Rattle.std.specs.Prelude.{List};
    ghost use Rattle.ev_known.specs.declared.facts.Activation.{Activation};
    ghost use Rattle.ev_uses.specs.declared.stack.OpenedCall.{OpenedCall};

    ghost Value = { List (Activation × List OpenedCall) };

    ghost view = { λ c. c.stacks.entries };
}

/// The name that a call asks for a guard, if it asks one.
#[tactic(auto, unfolding(def_event::specs::Uses::name_of))]
fn asked_name(called: &Called) -> Option<Name>
    ensures { result ≡ asked_name called.now }
{
    if called.verb.as_str() != "getGuard" {
        return None;
    }
    match &called.target {
        Shown::Name(name) => Some(*name),
        _ => None,
    }
}

/// Whether a call at a place asks for a guard what leads to an audition.
fn asks_audition(
    knowledge: &Knowledge,
    alloc: Global,
    at: u64,
    called: &Called,
) -> Result<bool, Memory>
    ensures { (past : List Line) → KnownStand knowledge.now past → IfOk result (λ asks. IsTrue asks ↔ AsksAudition at (record { call = called.now; before = past })) }
{
    match asked_name(called) {
        Some(name) => knowledge.leads_to_audition(alloc, at, &name),
        None => Ok(false),
    }
}

impl Calls {
    /// No call. It takes no memory.
    #[tactic(auto, using(crate::proofs::Calling::none_open))]
    pub fn new(alloc: Global) -> Calls
        ensures { CallsStand result [] }
    {
        Calls {
            stacks: IndexMap::new(alloc),
        }
    }

    /// The innermost open call of an activation.
    #[tactic(auto, unfolding(crate::specs::Calls::stack))]
    pub fn innermost(&self, activation: Activation) -> Option<OpenedCall>
        ensures { result ≡ slice_get (stack self.now activation) 0 }
    {
        match self.stacks.get(&activation) {
            Some(calls) => calls.innermost(),
            None => None,
        }
    }

    /// The stack of an activation, taken out.
    #[tactic(auto, unfolding(crate::specs::Calls::stack))]
    fn take(&mut self, alloc: Global, activation: Activation) -> Stack
        ensures calls { result ≡ stack self.old activation }
        ensures others { HasStack activation [] self.old self.new }
    {
        match self.stacks.swap_remove(&activation) {
            Some(calls) => calls,
            None => Stack::new(alloc),
        }
    }

    /// An activation has these open calls from now on.
    fn put(&mut self, activation: Activation, calls: Stack) -> Result<(), Memory>
        ensures { OnOk result (HasStack activation calls self.old self.new) }
    {
        self.stacks.insert(activation, calls)?;
        Ok(())
    }

    /// A call of an activation begins.
    fn push(
        &mut self,
        alloc: Global,
        activation: Activation,
        call: OpenedCall,
    ) -> Result<(), Memory>
        ensures { OnOk result (HasStack activation (call ∷ stack self.old activation) self.old self.new) }
    {
        let mut calls = self.take(alloc, activation);
        calls.push(call)?;
        self.put(activation, calls)
    }

    /// A call begins.
    fn open(
        &mut self,
        alloc: Global,
        knowledge: &Knowledge,
        at: u64,
        called: &Called,
    ) -> Result<(), Memory>
        ensures { (past : List Line) → KnownStand knowledge.now past → OnOk result (Opens past at called.now self.old self.new) }
    {
        let asks = asks_audition(knowledge, alloc, at, called)?;
        let number = called.activation;
        let call = OpenedCall {
            begun: called.begun,
            asks_audition: asks,
        };
        self.push(alloc, Activation { at, number }, call)
    }

    /// The innermost call of an activation ends, if one is open.
    fn close(&mut self, alloc: Global, at: u64, number: u64) -> Result<(), Memory>
        ensures { OnOk result (Closes at number self.old self.new) }
    {
        let activation = Activation { at, number };
        let mut calls = self.take(alloc, activation);
        calls.pop();
        self.put(activation, calls)
    }

    /// What an event at a place begins or ends.
    #[tactic(auto, unfolding(crate::specs::Calls::CallsAfter))]
    fn tell_event(
        &mut self,
        alloc: Global,
        knowledge: &Knowledge,
        at: u64,
        event: &Event,
    ) -> Result<(), Memory>
        ensures { (past : List Line) → KnownStand knowledge.now past → OnOk result (CallsAfter past at event.now self.old self.new) }
    {
        match event {
            Event::Call(called) => self.open(alloc, knowledge, at, called.get()),
            Event::Back(number, _) => self.close(alloc, at, *number),
            Event::Thrown(number, _) => self.close(alloc, at, *number),
            Event::Gone(number) => self.close(alloc, at, *number),
            _ => Ok(()),
        }
    }

    /// Notes what a line at a place begins or ends, by what is known by the lines before it. Calls that stand for the lines
    /// before it stand for these and the line.
    pub fn tell_line(
        &mut self,
        alloc: Global,
        knowledge: &Knowledge,
        at: u64,
        event: &Event,
    ) -> Result<(), Memory>
        ensures { (past : List Line) → KnownStand knowledge.now past → CallsStand self.old past → OnOk result (CallsStand self.new (record { at = at; event = event.now } ∷ past)) }
    {
        self.tell_event(alloc, knowledge, at, event)
    }
}
