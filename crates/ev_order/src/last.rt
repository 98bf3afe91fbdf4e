//! The last place of each reference.

ghost use Rattle.std.specs.Prelude.{◌≡◌, [], MatchOption, OnOk};
ghost use Rattle.ev_order.specs.Last.{HasNone, IsLast, Sets};

use def_event::Reference;
use ev_base::{Memory, Name};
use indexmap::IndexMap;
use std::alloc::Global;
use std::marker::Model;

/// The last place of each reference so far.
pub struct LastPlaces {
    places: IndexMap<Reference, usize>,
}

impl Drop for LastPlaces {
    fn drop(self) {
        let Self { places: _places } = self;
    }
}

impl Model for LastPlaces {
    ghost use Rattle.ev_order.specs.Last.{LastList};

    ghost Value = { LastList };

    ghost view = { λ l. l.places.entries };
}

impl LastPlaces {
    /// No places. It takes no memory.
    pub fn new(alloc: Global) -> LastPlaces
        ensures { result ≡ [] }
    {
        LastPlaces {
            places: IndexMap::new(alloc),
        }
    }

    /// The last place of a reference.
    pub fn find(&self, reference: &Reference) -> Option<usize>
        ensures { MatchOption result (HasNone reference.now self.now) (λ place. IsLast reference.now place self.now) }
    {
        self.places.get(reference).copied()
    }

    /// Makes a place the last of its reference.
    pub fn set(&mut self, reference: &Reference, place: usize) -> Result<(), Memory>
        ensures { OnOk result (Sets reference.now place self.old self.new) }
    {
        self.put(reference.vat, reference.name, place)
    }

    fn put(&mut self, vat: Option<u8>, name: Name, place: usize) -> Result<(), Memory>
        ensures { OnOk result (Sets (record { vat = vat; name = name }) place self.old self.new) }
    {
        self.places.insert(Reference { vat, name }, place)?;
        Ok(())
    }
}
