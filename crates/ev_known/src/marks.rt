//! From where on activations and objects have the chains in which what they hold stands.

ghost use Rattle.std.specs.Prelude.{◌≡◌, ◌<◌, [], List, Some, IsTrue, OnOk, length, nat_le, slice_get};
ghost use Rattle.def_event.specs.Uses.{IsAmong, Line};
ghost use Rattle.ev_known.specs.Marks.{AreKept, AreMarked, HeldAs, IsMarkedFor, MarksStand, PutsMark, holding, is_from, is_marked, mark_at};
ghost use Rattle.ev_known.specs.Telling.{StandsFor};

use crate::facts::{Activation, Fact, Facts};
use crate::following::Following;
use ev_base::Memory;
use ev_links::{Label, Spot, Standing};
use indexmap::IndexMap;
use std::alloc::Global;
use std::marker::Model;

/// Who has things.
#[derive(Clone, Copy, PartialEq, Eq, Hash)]
pub enum Holder {
    /// An activation, which was given them.
    Activation(Activation),
    /// An object, which captured them.
    Object(Label),
}

/// A holder, and a chain of names, by its place and its first name.
#[derive(Clone, Copy, PartialEq, Eq, Hash)]
pub struct Mark {
    pub holder: Holder,
    pub chain: Spot,
}

/// Where the first name stands in a chain that its holder has. Contracts see each with its holder and its chain.
pub struct Marks {
    places: IndexMap<Mark, u64>,
}

impl Drop for Marks {
    fn drop(self) {
        let Self { places: _places } = self;
    }
}

impl Model for Marks {
    ghost use Rattle.std.specs.Prelude.{List, ℕ};
    ghost use Rattle.ev_known.specs.declared.marks.Mark.{Mark};

    ghost Value = { List (Mark × ℕ) };

    ghost view = { λ m. m.places.entries };
}

/// Whether a place is marked, and no other one comes before it.
fn is_from(first: Option<u64>, place: u64) -> bool
    ensures { result ≡ is_from first place }
{
    match first {
        Some(first) => first <= place,
        None => false,
    }
}

impl Marks {
    /// Nothing is marked. It takes no memory.
    pub fn new(alloc: Global) -> Marks
        ensures { result ≡ [] }
    {
        Marks {
            places: IndexMap::new(alloc),
        }
    }

    /// The place that is marked.
    #[tactic(auto, unfolding(crate::specs::Marks::mark_at))]
    fn find(&self, mark: Mark) -> Option<u64>
        ensures { result ≡ mark_at self.now mark }
    {
        self.places.get(&mark).copied()
    }

    /// Marks a place.
    #[tactic(auto, unfolding(crate::specs::Marks::mark_at))]
    fn put(&mut self, mark: Mark, place: u64) -> Result<(), Memory>
        ensures { OnOk result (PutsMark mark place self.old self.new) }
    {
        self.places.insert(mark, place)?;
        Ok(())
    }

    /// Whether the holder has something that stands there, or before that in the same chain.
    pub fn is_marked(&self, holder: Holder, at: u64, standing: Standing) -> bool
        ensures { result ≡ is_marked self.now holder at standing }
    {
        let name = standing.chain;
        let chain = Spot { at, name };
        is_from(self.find(Mark { holder, chain }), standing.place)
    }

    /// A holder has something at a place, which may stand in a chain there.
    fn mark(
        &mut self,
        following: &Following,
        holder: Holder,
        at: u64,
        label: Label,
    ) -> Result<(), Memory>
        ensures stands { (past : List Line) → HeldAs past holder label → MarksStand self.old following.now.plan past → OnOk result (MarksStand self.new following.now.plan past) }
        ensures kept { OnOk result (AreKept self.old self.new) }
        ensures marked { OnOk result (IsMarkedFor self.new following.now.plan (Some (record { holder = holder; at = at; label = label }))) }
    {
        let Some(standing) = following.standing(at, label) else {
            return Ok(());
        };
        if self.is_marked(holder, at, standing) {
            return Ok(());
        }
        let name = standing.chain;
        let chain = Spot { at, name };
        self.put(Mark { holder, chain }, standing.place)
    }

    /// A fact may tell what an activation was given, or what an object captured. The code of an object runs at the place of its vat.
    fn tell_fact(&mut self, following: &Following, facts: &Facts, fact: Fact) -> Result<(), Memory>
        ensures stands { (past : List Line) → StandsFor facts.now past → IsAmong fact facts.now → MarksStand self.old following.now.plan past → OnOk result (MarksStand self.new following.now.plan past) }
        ensures kept { OnOk result (AreKept self.old self.new) }
        ensures marked { OnOk result (IsMarkedFor self.new following.now.plan (holding fact)) }
    {
        match fact {
            Fact::Given(activation, label) => {
                let holder = Holder::Activation(activation);
                self.mark(following, holder, activation.at, label)
            }
            Fact::Captured(object, label) => {
                let at = u64::from(object.host) + 1;
                self.mark(following, Holder::Object(object), at, label)
            }
            _ => Ok(()),
        }
    }

    /// The facts from that one on are told. Of what they tell that is held, all that stands in a chain is marked.
    pub fn tell_from(
        &mut self,
        following: &Following,
        facts: &Facts,
        first: usize,
    ) -> Result<(), Memory>
        ensures stands { (past : List Line) → StandsFor facts.now past → MarksStand self.old following.now.plan past → OnOk result (MarksStand self.new following.now.plan past) }
        ensures marked { OnOk result (AreMarked following.now.plan facts.now first (length facts.now) self.old self.new) }
    {
        for index in first..facts.len() {
            let fact = facts.at(index);
            self.tell_fact(following, facts, fact)?;
        }
        Ok(())
    }
}
