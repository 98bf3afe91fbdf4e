//! Things by their positions, and positions by their things.

ghost use Rattle.std.specs.Prelude.{◌≡◌, ◌++◌, ◌∷◌, [], None, length, slice_get, OnOk, OnErr};
ghost use Rattle.ev_tables.specs.Table.{place_of};

use crate::thing::Thing;
use ev_base::{Memory, Value};
use indexmap::IndexSet;
use std::alloc::Global;
use std::marker::Model;

/// Things, each at its position.
pub(crate) struct Places {
    things: IndexSet<Thing>,
}

impl Drop for Places {
    fn drop(self) {
        let Self { things: _things } = self;
    }
}

impl Model for Places {
    ghost use Rattle.std.specs.Prelude.{map};
    ghost use Rattle.ev_tables.specs.Table.{Things};

    ghost Value = { Things };

    ghost view = { λ p. map (λ t. t.0) p.things.keys };
}

impl Places {
    pub fn new(alloc: Global) -> Places
        ensures { result ≡ [] }
    {
        Places {
            things: IndexSet::new(alloc),
        }
    }

    pub fn len(&self) -> usize
        ensures { result ≡ length self.now }
    {
        self.things.len()
    }

    /// The position of a thing, where it has one.
    pub fn find(&self, value: &Value) -> Option<usize>
        ensures { result ≡ place_of value.now self.now }
    {
        self.things.get_index_of(&Thing(*value))
    }

    /// The thing at a position, where one is there.
    pub fn get(&self, position: usize) -> Option<Value>
        ensures { result ≡ slice_get self.now position }
    {
        match self.things.get_index(position) {
            Some(thing) => Some(thing.0),
            None => None,
        }
    }

    /// Gives a thing that has no position the next one. A refusal changes nothing.
    pub fn push(&mut self, value: &Value) -> Result<(), Memory>
        requires { place_of value.now self.old ≡ None }
        ensures ok { OnOk result (self.new ≡ self.old ++ value.now ∷ []) }
        ensures err { OnErr result (self.new ≡ self.old) }
    {
        self.things.insert_full(Thing(*value))?;
        Ok(())
    }
}
