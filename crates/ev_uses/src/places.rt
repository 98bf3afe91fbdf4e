//! Places of lines in a history, by the messages that they speak of.

ghost use Rattle.std.specs.Prelude.{◌≡◌, [], OnOk, is_some};
ghost use Rattle.ev_uses.specs.Places.{Notes, NotesFor, Puts, PutsFor, place_in};

use ev_base::{Memory, Msg};
use indexmap::IndexMap;
use std::alloc::Global;
use std::marker::Model;

/// The place of a line for each message, counted from 0.
pub struct Places {
    places: IndexMap<Msg, usize>,
}

impl Drop for Places {
    fn drop(self) {
        let Self { places: _places } = self;
    }
}

impl Model for Places {
    ghost use Rattle.std.specs.Prelude.{List, ℕ};
    ghost use Rattle.ev_base.specs.declared.names.Msg.{Msg};

    ghost Value = { List (Msg × ℕ) };

    ghost view = { λ p. p.places.entries };
}

impl Places {
    /// No places. It takes no memory.
    pub fn new(alloc: Global) -> Places
        ensures { result ≡ [] }
    {
        Places {
            places: IndexMap::new(alloc),
        }
    }

    /// The place of a message, where it has one.
    #[tactic(auto, unfolding(crate::specs::Places::place_in))]
    pub fn find(&self, message: &Msg) -> Option<usize>
        ensures { result ≡ place_in self.now message.now }
    {
        self.places.get(message).copied()
    }

    /// Puts the place of a message.
    #[tactic(auto, unfolding(crate::specs::Places::place_in))]
    fn set(&mut self, message: Msg, place: usize) -> Result<(), Memory>
        ensures { OnOk result (Puts message place self.old self.new) }
    {
        self.places.insert(message, place)?;
        Ok(())
    }

    /// Puts the place of a line for the message that it speaks of, if it speaks of one.
    pub fn put(&mut self, message: Option<Msg>, place: usize) -> Result<(), Memory>
        ensures { OnOk result (PutsFor message place self.old self.new) }
    {
        match message {
            Some(message) => self.set(message, place),
            None => Ok(()),
        }
    }

    /// The same, unless the message has a place.
    pub fn note(&mut self, message: Option<Msg>, place: usize) -> Result<(), Memory>
        ensures { OnOk result (NotesFor message place self.old self.new) }
    {
        let Some(message) = message else {
            return Ok(());
        };
        if self.find(&message).is_some() {
            return Ok(());
        }
        self.set(message, place)
    }
}
