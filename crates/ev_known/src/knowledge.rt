//! What activations know by the lines so far.

ghost use Rattle.std.specs.Prelude.{◌≡◌, false, ◌↔◌, ◌∷◌, ◌<◌, [], ◌&&◌, List, IfOk, IsTrue, OnOk, length};
ghost use Rattle.def_event.specs.Uses.{AName, Line, Knows, Thing};
ghost use Rattle.ev_links.specs.Label.{label as label_of};
ghost use Rattle.ev_links.specs.Chains.{PlanStands};
ghost use Rattle.ev_known.specs.Knowing.{KnownStand, LeadsToAudition, Searched, any_leads, has_captured, has_in, is_chained, is_led, is_root_label, knows_in, leads_from};
ghost use Rattle.ev_known.specs.Telling.{is_told};
ghost use Rattle.ev_known.specs.declared.facts.Fact.TheVariants.{Opened as OpenedFact};

use crate::facts::{Activation, Fact, Facts};
use crate::following::Following;
use crate::found::{Finding, Found};
use crate::leads::tell_leads;
use crate::marks::{Holder, Marks};
use crate::runs::Runs;
use def_event::Event;
use ev_base::{Memory, Name};
use ev_links::{Kind, Label, Labels, Link, Links, Plan, Scope, is_open, name_label};
use std::alloc::Global;
use std::marker::Model;

/// What the lines so far tell of who knows what.
pub struct Knowledge {
    facts: Facts,
    following: Following,
    runs: Runs,
    links: Links,
    marks: Marks,
    found: Found,
}

/// So many findings are kept at most, which take some 20 MB.
const MOST_FOUND: usize = 262_144;

impl Drop for Knowledge {
    fn drop(self) {
        let Self {
            facts: _facts,
            following: _following,
            runs: _runs,
            links: _links,
            marks: _marks,
            found: _found,
        } = self;
    }
}

impl Model for Knowledge {
    ghost use Rattle.ev_known.specs.Knowing.{Known};

    ghost Value = { Known };

    ghost view = { λ k. record { facts = k.facts; following = k.following; runs = k.runs; links = k.links; marks = k.marks; found = k.found } };
}

/// Whether a label is of a root.
fn is_root(label: &Label) -> bool
    ensures { result ≡ is_root_label label.now }
{
    match label.kind {
        Kind::Root => true,
        _ => false,
    }
}

/// Whether an opening activation has a root.
fn has_root(facts: &Facts, activation: Activation, label: &Label) -> bool
    ensures { result ≡ (is_root_label label.now && is_told facts.now (OpenedFact activation)) }
{
    if !is_root(label) {
        return false;
    }
    facts.has(Fact::Opened(activation))
}

/// Whether an object captured a thing, where there is one.
fn has_captured(facts: &Facts, object: Option<Label>, label: Label) -> bool
    ensures { result ≡ has_captured facts.now object label }
{
    match object {
        Some(object) => facts.has(Fact::Captured(object, label)),
        None => false,
    }
}

impl Knowledge {
    /// Before the first line, with a plan of the chains of the whole history. It may be any: by chains that are not in it,
    /// names are sought from one to the next. It takes no memory.
    pub fn new(alloc: Global, plan: Plan) -> Knowledge
        ensures stands { PlanStands plan → KnownStand result [] }
        ensures plan { result.following.plan ≡ plan }
    {
        Knowledge {
            facts: Facts::new(alloc),
            following: Following::new(alloc, plan),
            runs: Runs::new(alloc),
            links: Links::new(alloc),
            marks: Marks::new(alloc),
            found: Found::new(alloc),
        }
    }

    /// A line at a place is told. What stands for the lines before it stands for these and the line.
    pub fn tell_line(&mut self, alloc: Global, at: u64, event: &Event) -> Result<(), Memory>
        ensures { (past : List Line) → KnownStand self.old past → OnOk result (KnownStand self.new (record { at = at; event = event.now } ∷ past)) }
    {
        self.runs
            .tell_line(alloc, &self.facts, &self.following, at, event)?;
        let first = self.facts.len();
        self.facts.tell_line(at, event)?;
        self.following.tell_line(at, event)?;
        self.marks.tell_from(&self.following, &self.facts, first)?;
        tell_leads(&mut self.links, alloc, at, event)
    }

    /// Whether an activation has a thing by itself.
    fn has(&self, activation: Activation, label: Label) -> bool
        ensures { result ≡ has_in self.now activation label }
    {
        if has_root(&self.facts, activation, &label) {
            return true;
        }
        if self.facts.has(Fact::Given(activation, label)) {
            return true;
        }
        has_captured(&self.facts, self.runs.find(activation), label)
    }

    /// Whether something stands in a chain, as far as that has come, behind what an activation or the object that it runs holds.
    fn is_chained(&self, activation: Activation, label: Label) -> bool
        ensures { result ≡ is_chained self.now activation label }
    {
        let at = activation.at;
        let Some(standing) = self.following.standing(at, label) else {
            return false;
        };
        if !self.following.is_told(at, standing) {
            return false;
        }
        if self
            .marks
            .is_marked(Holder::Activation(activation), at, standing)
        {
            return true;
        }
        match self.runs.find(activation) {
            Some(object) => self.marks.is_marked(Holder::Object(object), at, standing),
            None => false,
        }
    }

    /// Whether an activation has a thing, or was found to know it, or a chain leads to it from what it has.
    fn knows_already(&self, activation: Activation, thing: Label) -> bool
        ensures { result ≡ knows_in self.now activation thing }
    {
        let by = activation;
        if self.found.has(Finding { by, thing }) {
            return true;
        }
        if self.has(activation, thing) {
            return true;
        }
        self.is_chained(activation, thing)
    }

    /// Whether a link leads from what an activation knows already.
    fn leads_from(&self, activation: Activation, link: &Link) -> bool
        ensures { result ≡ leads_from self.now activation link.now }
    {
        is_open(&Scope::Place(activation.at), &link.way)
            && self.knows_already(activation, link.other)
    }

    /// Whether one of these links leads from what an activation knows already. The last is looked at first.
    fn any_leads(&self, activation: Activation, links: &[Link]) -> bool
        ensures { result ≡ any_leads self.now activation links.now }
    {
        links
            .iter()
            .rev()
            .any(|link| self.leads_from(activation, link))
    }

    /// Whether something that an activation knows already leads to a thing.
    fn is_led(&self, activation: Activation, label: Label) -> bool
        ensures { result ≡ is_led self.now activation label }
    {
        self.any_leads(activation, self.links.row(label))
    }

    /// Goes back from labels to what leads to them, the nearest first, up to one to which something leads that the activation
    /// knows already. Answers its place among the labels, to which all that was looked at is added.
    fn search(&self, activation: Activation, labels: &mut Labels) -> Result<Option<usize>, Memory>
        ensures { IfOk result (λ found. Searched self.now activation labels.old labels.new found) }
    {
        let mut index = 0;
        while index < labels.len() {
            let label = labels.at(index);
            if self.is_led(activation, label) {
                return Ok(Some(index));
            }
            self.links
                .go_on(&Scope::Place(activation.at), label, labels)?;
            index += 1;
        }
        Ok(None)
    }

    /// Makes room for one more finding: what was found is let go where it is much, and is sought again when it is used.
    #[tactic(auto, using(crate::proofs::Knowing::none_found_stand))]
    fn make_room(&mut self)
        ensures { (past : List Line) → KnownStand self.old past → KnownStand self.new past }
    {
        if self.found.len() < MOST_FOUND {
            return;
        }
        self.found.clear();
    }

    /// Keeps that an activation knows a thing, where something that it knows already leads to it.
    fn keep(&mut self, activation: Activation, label: Label) -> Result<(), Memory>
        ensures { (past : List Line) → KnownStand self.old past → OnOk result (KnownStand self.new past) }
    {
        if !self.is_led(activation, label) {
            return Ok(());
        }
        self.found.add(Finding {
            by: activation,
            thing: label,
        })
    }

    /// The same for the labels up to a place, from there back to the first.
    fn keep_back(
        &mut self,
        activation: Activation,
        labels: &Labels,
        last: usize,
    ) -> Result<(), Memory>
        requires { last < length labels.now }
        ensures { (past : List Line) → KnownStand self.old past → OnOk result (KnownStand self.new past) }
    {
        for back in 0..=last {
            self.make_room();
            self.keep(activation, labels.at(last - back))?;
        }
        Ok(())
    }

    /// Whether something that an activation knows already leads to a thing, from one to the next. What is found on the way is kept.
    /// No label is given yet.
    fn seek(
        &mut self,
        labels: &mut Labels,
        activation: Activation,
        label: Label,
    ) -> Result<bool, Memory>
        ensures { (past : List Line) (thing : Thing) → KnownStand self.old past → labels.old ≡ [] → label ≡ label_of thing → knows_in self.old activation label ≡ false
            → IfOk result (λ known. (IsTrue known ↔ Knows past (record { at = activation.at; number = activation.number }) thing) × KnownStand self.new past) }
    {
        labels.add(label)?;
        let Some(place) = self.search(activation, labels)? else {
            return Ok(false);
        };
        self.keep_back(activation, labels, place)?;
        Ok(true)
    }

    /// Whether an activation knows a name by the lines so far. What is found on the way is kept.
    ///
    /// Time grows with what leads to the name, up to the nearest thing that the activation has or was found to know.
    pub fn knows(
        &mut self,
        alloc: Global,
        activation: Activation,
        name: &Name,
    ) -> Result<bool, Memory>
        ensures { (past : List Line) → KnownStand self.old past
            → IfOk result (λ known. (IsTrue known ↔ Knows past (record { at = activation.at; number = activation.number }) (AName name.now)) × KnownStand self.new past) }
    {
        let label = name_label(name);
        if self.knows_already(activation, label) {
            return Ok(true);
        }
        let mut labels = Labels::new(alloc);
        self.seek(&mut labels, activation, label)
    }

    /// Whether a name leads to an audition at a place by the lines so far. Time grows with the names on the way.
    pub fn leads_to_audition(&self, alloc: Global, at: u64, name: &Name) -> Result<bool, Memory>
        ensures { (past : List Line) → KnownStand self.now past → IfOk result (λ leads. IsTrue leads ↔ LeadsToAudition past at name.now) }
    {
        let Some(object) = self.following.follow(alloc, at, name)? else {
            return Ok(false);
        };
        Ok(self.facts.has(Fact::Audition(object)))
    }
}
