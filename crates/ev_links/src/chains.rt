//! Chains of names at places, in which each settles to the next: a plan of them, by a whole history.

ghost use Rattle.std.specs.Prelude.{◌≡◌, ◌<◌, ◌^◌, [], ◌∷◌, IfOk, IfSome, List, OnOk, Some};
ghost use Rattle.def_event.specs.declared.event.Event.{Event as EventValue};
ghost use Rattle.def_event.specs.declared.event.Event.TheVariants.{Settle as Settles};
ghost use Rattle.def_event.specs.Uses.{Line, and_lines};
ghost use Rattle.ev_links.specs.Chains.{IsNextPlace, PutsEnd, PutsStanding, end_of, standing};
ghost use Rattle.ev_links.specs.Plan.{Appended, IsPlanOf, settling};

use crate::label::{Label, name_label};
use crate::place::place_after;
use def_event::{Event, Shown};
use ev_base::{Memory, Name};
use indexmap::IndexMap;
use std::alloc::Global;
use std::marker::Model;

/// A name at a place.
#[derive(Clone, Copy, PartialEq, Eq, Hash)]
pub struct Spot {
    pub at: u64,
    pub name: Label,
}

/// Where a name stands: the chain, by its first name, and how many names are before it there.
#[derive(Clone, Copy)]
pub struct Standing {
    pub chain: Label,
    pub place: u64,
}

/// How far a chain goes: its last name, and how many are before that.
#[derive(Clone, Copy)]
pub struct End {
    pub place: u64,
    pub name: Label,
}

/// Where names stand at each place.
pub struct Standings {
    standings: IndexMap<Spot, Standing>,
}

impl Drop for Standings {
    fn drop(self) {
        let Self {
            standings: _standings,
        } = self;
    }
}

impl Model for Standings {
    ghost use Rattle.std.specs.Prelude.{List};
    ghost use Rattle.ev_links.specs.declared.chains.Spot.{Spot};
    ghost use Rattle.ev_links.specs.declared.chains.Standing.{Standing};

    ghost Value = { List (Spot × Standing) };

    ghost view = { λ s. s.standings.entries };
}

/// How far chains go, each by its place and its first name.
pub struct Ends {
    ends: IndexMap<Spot, End>,
}

impl Drop for Ends {
    fn drop(self) {
        let Self { ends: _ends } = self;
    }
}

impl Model for Ends {
    ghost use Rattle.std.specs.Prelude.{List};
    ghost use Rattle.ev_links.specs.declared.chains.End.{End};
    ghost use Rattle.ev_links.specs.declared.chains.Spot.{Spot};

    ghost Value = { List (Spot × End) };

    ghost view = { λ e. e.ends.entries };
}

/// Where a name stands.
#[tactic(auto, unfolding(crate::specs::Chains::standing))]
fn find_standing(standings: &IndexMap<Spot, Standing>, spot: Spot) -> Option<Standing>
    ensures { result ≡ standing standings.now.entries spot }
{
    standings.get(&spot).copied()
}

/// A name comes to stand somewhere.
#[tactic(auto, unfolding(crate::specs::Chains::standing))]
fn put_standing(
    standings: &mut IndexMap<Spot, Standing>,
    spot: Spot,
    value: Standing,
) -> Result<(), Memory>
    ensures { OnOk result (PutsStanding spot value standings.old.entries standings.new.entries) }
{
    standings.insert(spot, value)?;
    Ok(())
}

/// How far a chain goes.
#[tactic(auto, unfolding(crate::specs::Chains::end_of))]
fn find_end(ends: &IndexMap<Spot, End>, spot: Spot) -> Option<End>
    ensures { result ≡ end_of ends.now.entries spot }
{
    ends.get(&spot).copied()
}

/// A chain comes to go so far.
#[tactic(auto, unfolding(crate::specs::Chains::end_of))]
fn put_end(ends: &mut IndexMap<Spot, End>, spot: Spot, value: End) -> Result<(), Memory>
    ensures { OnOk result (PutsEnd spot value ends.old.entries ends.new.entries) }
{
    ends.insert(spot, value)?;
    Ok(())
}

impl Standings {
    /// No name stands anywhere. It takes no memory.
    fn new(alloc: Global) -> Standings
        ensures { result ≡ [] }
    {
        Standings {
            standings: IndexMap::new(alloc),
        }
    }

    /// Where a name stands at a place.
    fn find(&self, at: u64, name: Label) -> Option<Standing>
        ensures { result ≡ standing self.now (record { at = at; name = name }) }
    {
        find_standing(&self.standings, Spot { at, name })
    }

    /// A name comes to stand somewhere at a place.
    fn put(&mut self, at: u64, name: Label, value: Standing) -> Result<(), Memory>
        ensures { OnOk result (PutsStanding (record { at = at; name = name }) value self.old self.new) }
    {
        put_standing(&mut self.standings, Spot { at, name }, value)
    }
}

impl Ends {
    /// No chain. It takes no memory.
    pub fn new(alloc: Global) -> Ends
        ensures { result ≡ [] }
    {
        Ends {
            ends: IndexMap::new(alloc),
        }
    }

    /// How far the chain of that first name goes at a place.
    pub fn find(&self, at: u64, name: Label) -> Option<End>
        ensures { result ≡ end_of self.now (record { at = at; name = name }) }
    {
        find_end(&self.ends, Spot { at, name })
    }

    /// It comes to go so far.
    pub fn put(&mut self, at: u64, name: Label, value: End) -> Result<(), Memory>
        ensures { OnOk result (PutsEnd (record { at = at; name = name }) value self.old self.new) }
    {
        put_end(&mut self.ends, Spot { at, name }, value)
    }
}

/// The place after the end of a chain, where numbers reach so far.
fn next_place(end: Option<End>) -> Option<u64>
    ensures next { IsNextPlace end result }
    ensures fits { IfSome result (λ place. place < 2 ^ 64) }
{
    let Some(end) = end else {
        return Some(0);
    };
    if end.place == u64::MAX {
        return None;
    }
    Some(end.place + 1)
}

/// Adds a name to the end of a chain, unless it stands in one, or numbers reach no further.
fn append_in(
    standings: &mut Standings,
    ends: &mut Ends,
    at: u64,
    name: Label,
    chain: Label,
) -> Result<(), Memory>
    ensures { OnOk result (Appended at name chain (record { standings = standings.old; ends = ends.old }) (record { standings = standings.new; ends = ends.new })) }
{
    if standings.find(at, name).is_some() {
        return Ok(());
    }
    let Some(place) = next_place(ends.find(at, chain)) else {
        return Ok(());
    };
    standings.put(at, name, Standing { chain, place })?;
    ends.put(at, chain, End { place, name })?;
    Ok(())
}

/// Chains of names. No two names stand at one place of a chain, and each name stands in one chain at a place.
///
/// It is a shortcut: what is known stands in the lines, whatever is planned, and a search by them finds the same, one name after the other.
pub struct Plan {
    standings: Standings,
    ends: Ends,
}

impl Drop for Plan {
    fn drop(self) {
        let Self {
            standings: _standings,
            ends: _ends,
        } = self;
    }
}

impl Model for Plan {
    ghost use Rattle.ev_links.specs.Chains.{PlanTables};

    ghost Value = { PlanTables };

    ghost view = { λ p. record { standings = p.standings; ends = p.ends } };
}

impl Plan {
    /// No chain. It takes no memory.
    pub fn new(alloc: Global) -> Plan
        ensures { IsPlanOf [] result }
    {
        Plan {
            standings: Standings::new(alloc),
            ends: Ends::new(alloc),
        }
    }

    /// Where a name stands at a place.
    pub fn find(&self, at: u64, name: Label) -> Option<Standing>
        ensures { result ≡ standing self.now.standings (record { at = at; name = name }) }
    {
        self.standings.find(at, name)
    }

    /// Adds a name to the end of a chain, unless it stands in one, or numbers reach no further.
    fn append(&mut self, at: u64, name: Label, chain: Label) -> Result<(), Memory>
        ensures { OnOk result (Appended at name chain self.old self.new) }
    {
        append_in(&mut self.standings, &mut self.ends, at, name, chain)
    }

    /// A name settles to another, which stands after it, unless that stands elsewhere or it has another after it.
    fn extend(&mut self, at: u64, from: Label, to: Label) -> Result<(), Memory>
        ensures { (past : List Line) (event : EventValue) → settling event ≡ Some (record { from = from; to = to }) → IsPlanOf past self.old
            → OnOk result (IsPlanOf (record { at = at; event = event } ∷ past) self.new) }
    {
        self.append(at, from, from)?;
        let Some(standing) = self.find(at, from) else {
            return Ok(());
        };
        let Some(end) = self.ends.find(at, standing.chain) else {
            return Ok(());
        };
        if end.name != from {
            return Ok(());
        }
        self.append(at, to, standing.chain)
    }

    /// A line at a place settles a name to a value, which may be another name.
    fn settle(&mut self, at: u64, name: &Name, value: &Shown) -> Result<(), Memory>
        ensures { (past : List Line) → IsPlanOf past self.old → OnOk result (IsPlanOf (record { at = at; event = Settles name.now value.now } ∷ past) self.new) }
    {
        match value {
            Shown::Name(other) => {
                let from = name_label(name);
                let to = name_label(other);
                self.extend(at, from, to)
            }
            _ => Ok(()),
        }
    }

    /// A line at a place may settle a name. The plan of the lines before it becomes that of these and the line.
    fn tell_line(&mut self, at: u64, event: &Event) -> Result<(), Memory>
        ensures { (past : List Line) → IsPlanOf past self.old → OnOk result (IsPlanOf (record { at = at; event = event.now } ∷ past) self.new) }
    {
        match event {
            Event::Settle(name, value) => self.settle(at, name, value),
            _ => Ok(()),
        }
    }
}

/// The chains of a whole history, which is gone through once: as its lines settle names to one another.
pub fn plan_of(alloc: Global, events: &[Event]) -> Result<Plan, Memory>
    ensures { IfOk result (λ plan. IsPlanOf (and_lines [] events.now) plan) }
{
    let mut plan = Plan::new(alloc);
    let mut at = 0;
    for event in events {
        at = place_after(at, event);
        plan.tell_line(at, event)?;
    }
    Ok(plan)
}
