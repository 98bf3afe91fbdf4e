//! Which object's code activations run.

ghost use Rattle.std.specs.Prelude.{◌≡◌, [], ◌∷◌, List, OnOk};
ghost use Rattle.def_event.specs.Uses.{Line, name_of, running_call, runs};
ghost use Rattle.ev_known.specs.Following.{TablesStand};
ghost use Rattle.ev_known.specs.Runs.{RunAfter, RunTarget, RunTold, RunsPut, RunsStand, runner};
ghost use Rattle.ev_known.specs.Telling.{StandsFor};

use crate::facts::{Activation, Fact, Facts};
use crate::following::Following;
use def_event::{Called, Event, Shown};
use ev_base::{Memory, Name};
use ev_links::Label;
use indexmap::IndexMap;
use std::alloc::Global;
use std::marker::Model;

/// The object whose code each activation runs.
pub struct Runs {
    objects: IndexMap<Activation, Label>,
}

impl Drop for Runs {
    fn drop(self) {
        let Self { objects: _objects } = self;
    }
}

impl Model for Runs {
    ghost use Rattle.std.specs.Prelude.{List};
    ghost use Rattle.ev_known.specs.declared.facts.Activation.{Activation};
    ghost use Rattle.ev_links.specs.declared.label.Label.{Label};

    ghost Value = { List (Activation × Label) };

    ghost view = { λ r. r.objects.entries };
}

impl Runs {
    /// No activation. It takes no memory.
    pub fn new(alloc: Global) -> Runs
        ensures empty { result ≡ [] }
        ensures stands { RunsStand result [] }
    {
        Runs {
            objects: IndexMap::new(alloc),
        }
    }

    /// The object whose code an activation runs.
    #[tactic(auto, unfolding(crate::specs::Runs::runner))]
    pub fn find(&self, activation: Activation) -> Option<Label>
        ensures { result ≡ runner self.now activation }
    {
        self.objects.get(&activation).copied()
    }

    /// An activation runs the code of an object.
    #[tactic(auto, unfolding(crate::specs::Runs::runner))]
    fn put(&mut self, activation: Activation, object: Label) -> Result<(), Memory>
        ensures { OnOk result (RunsPut activation object self.old self.new) }
    {
        self.objects.insert(activation, object)?;
        Ok(())
    }

    /// An activation begins with a target, unless it has begun.
    fn run(
        &mut self,
        alloc: Global,
        facts: &Facts,
        following: &Following,
        activation: Activation,
        target: &Name,
    ) -> Result<(), Memory>
        ensures { (past : List Line) → StandsFor facts.now past → TablesStand following.now past → OnOk result (RunAfter past activation.at activation.number target.now self.old self.new) }
    {
        if facts.has(Fact::Begun(activation)) {
            return Ok(());
        }
        let Some(object) = following.follow(alloc, activation.at, target)? else {
            return Ok(());
        };
        self.put(activation, object)
    }

    /// An activation begins with a target that may be no name.
    #[tactic(auto, unfolding(def_event::specs::Uses::name_of))]
    fn run_value(
        &mut self,
        alloc: Global,
        facts: &Facts,
        following: &Following,
        activation: Activation,
        target: &Shown,
    ) -> Result<(), Memory>
        ensures { (past : List Line) → StandsFor facts.now past → TablesStand following.now past → OnOk result (RunTarget past activation.at activation.number (name_of target.now) self.old self.new) }
    {
        match target {
            Shown::Name(name) => self.run(alloc, facts, following, activation, name),
            _ => Ok(()),
        }
    }

    /// A call may begin an activation.
    fn run_call(
        &mut self,
        alloc: Global,
        facts: &Facts,
        following: &Following,
        at: u64,
        called: &Called,
    ) -> Result<(), Memory>
        ensures { (past : List Line) → StandsFor facts.now past → TablesStand following.now past → OnOk result (RunTold past at (running_call called.now called.now.begun) self.old self.new) }
    {
        let Some(number) = called.begun else {
            return Ok(());
        };
        self.run_value(
            alloc,
            facts,
            following,
            Activation { at, number },
            &called.target,
        )
    }

    /// What an event at a place tells.
    #[tactic(auto, unfolding(def_event::specs::Uses::runs))]
    fn tell_event(
        &mut self,
        alloc: Global,
        facts: &Facts,
        following: &Following,
        at: u64,
        event: &Event,
    ) -> Result<(), Memory>
        ensures { (past : List Line) → StandsFor facts.now past → TablesStand following.now past → OnOk result (RunTold past at (runs event.now) self.old self.new) }
    {
        match event {
            Event::Take(taken) => {
                let taken = taken.get();
                let number = taken.activation;
                self.run_value(
                    alloc,
                    facts,
                    following,
                    Activation { at, number },
                    &taken.target,
                )
            }
            Event::Call(called) => self.run_call(alloc, facts, following, at, called.get()),
            _ => Ok(()),
        }
    }

    /// Notes what a line at a place begins, by the facts and tables that stand for the lines before it.
    pub fn tell_line(
        &mut self,
        alloc: Global,
        facts: &Facts,
        following: &Following,
        at: u64,
        event: &Event,
    ) -> Result<(), Memory>
        ensures { (past : List Line) → StandsFor facts.now past → TablesStand following.now past → RunsStand self.old past → OnOk result (RunsStand self.new (record { at = at; event = event.now } ∷ past)) }
    {
        self.tell_event(alloc, facts, following, at, event)
    }
}
