//! Places in the order of a trace, each of which leads to the next one with the same reference.

ghost use Rattle.std.specs.Prelude.{◌≡◌, ◌∷◌, ◌++◌, [], length, OnOk};
ghost use Rattle.ev_order.specs.Chains.{IsChain, LinksLast, linked, reference};

use crate::last::LastPlaces;
use crate::spread::Place;
use def_event::{Reference, Shown};
use ev_base::{Memory, Name};
use std::alloc::Global;
use std::marker::Model;

/// The places where references stand, in the order of a trace. An argument that is no reference has a place too.
#[derive(Drop)]
pub struct Chains {
    pub places: Vec<Place>,
    pub references: Vec<Option<Reference>>,
    last: LastPlaces,
}

impl Model for Chains {
    ghost use Rattle.ev_order.specs.Chains.{Chain};

    ghost Value = { Chain };

    ghost view = { λ c. record { places = c.places.items; references = c.references.items; last = c.last } };
}

/// A place, if there is one, leads to another next.
fn link(places: &mut Vec<Place>, from: Option<usize>, to: usize)
    ensures { places.new.items ≡ linked from to places.old.items }
{
    let Some(from) = from else {
        return;
    };
    if from < places.len() {
        places[from].next = Some(to);
    }
}

/// The last place of a reference leads to a new one, which is the last now.
fn link_last(
    places: &mut Vec<Place>,
    last: &mut LastPlaces,
    vat: Option<u8>,
    value: &Shown,
    place: usize,
) -> Result<(), Memory>
    ensures { OnOk result (LinksLast (reference vat value.now) place places.old.items places.new.items last.old last.new) }
{
    let Shown::Name(name) = value else {
        return Ok(());
    };
    let reference = Reference { vat, name: *name };
    link(places, last.find(&reference), place);
    last.set(&reference, place)
}

/// Notes the reference of a new place.
fn note(
    references: &mut Vec<Option<Reference>>,
    vat: Option<u8>,
    value: &Shown,
) -> Result<(), Memory>
    ensures { OnOk result (references.new.items ≡ references.old.items ++ reference vat value.now ∷ []) }
{
    match value {
        Shown::Name(name) => {
            let name: Name = *name;
            references.push(Some(Reference { vat, name }))?;
        }
        _ => references.push(None)?,
    }
    Ok(())
}

impl Chains {
    /// No places. It takes no memory.
    pub fn new(alloc: Global) -> Chains
        ensures chain { IsChain result }
        ensures references { result.references ≡ [] }
    {
        Chains {
            places: Vec::new(alloc),
            references: Vec::new(alloc),
            last: LastPlaces::new(alloc),
        }
    }

    /// How many places there are.
    pub fn len(&self) -> usize
        ensures { result ≡ length self.now.references }
    {
        self.references.len()
    }

    /// The places and their references.
    pub fn into_parts(self) -> (Vec<Place>, Vec<Option<Reference>>)
        ensures places { result.0.items ≡ self.places }
        ensures references { result.1.items ≡ self.references }
    {
        let Chains {
            places,
            references,
            last: _,
        } = self;
        (places, references)
    }

    /// A value of a vat comes behind the others, as a reference or as none.
    pub fn add(&mut self, vat: Option<u8>, value: &Shown) -> Result<(), Memory>
        requires { IsChain self.old }
        ensures chain { OnOk result (IsChain self.new) }
        ensures references { OnOk result (self.new.references ≡ self.old.references ++ reference vat value.now ∷ []) }
    {
        let place = self.places.len();
        link_last(&mut self.places, &mut self.last, vat, value, place)?;
        self.places.push(Place {
            next: None,
            over: None,
        })?;
        note(&mut self.references, vat, value)?;
        Ok(())
    }
}
