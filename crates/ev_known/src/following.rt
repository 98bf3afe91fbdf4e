//! What names settled to and have as their views, by the first lines that say so, and the object to which a name leads.

ghost use Rattle.std.specs.Prelude.{◌≡◌, ◌+◌, [], ◌∷◌, ◌<◌, Bool, true, false, List, IfOk, IfSome, IsTrue, OnOk, Some, is_some};
ghost use Rattle.ev_base.specs.declared.names.Name.{Name as NameValue};
ghost use Rattle.def_event.specs.Uses.{AName, Line, is_object as is_object_name, name_of, settles, views};
ghost use Rattle.ev_known.specs.declared.following.Goal.TheVariants.{To as ToName};
ghost use Rattle.ev_known.specs.Following.{ChainsStand, FollowedAs, Follows, FollowsTo, GivesFirst, Noted, NotedFor, Puts, Strides, StridesTo, Table, TablesStand, goal, goal_at, is_object_label, is_told_in, next_of, place_told};
ghost use Rattle.ev_links.specs.Chains.{PlanStands, standing};
ghost use Rattle.ev_links.specs.Label.{label};

use def_event::{Event, Shown};
use ev_base::{Memory, Name};
use ev_links::{End, Ends, Kind, Label, Labels, Plan, Spot, Standing, name_label};
use indexmap::IndexMap;
use std::alloc::Global;
use std::marker::Model;

/// What a line gives for a name.
#[derive(Clone, Copy)]
pub enum Goal {
    /// A name.
    To(Label),
    /// Something that is no name.
    Data,
}

/// What the first line of a kind gives for each name at each place.
pub struct Firsts {
    given: IndexMap<Spot, Goal>,
}

impl Drop for Firsts {
    fn drop(self) {
        let Self { given: _given } = self;
    }
}

impl Model for Firsts {
    ghost use Rattle.std.specs.Prelude.{List};
    ghost use Rattle.ev_known.specs.declared.following.Goal.{Goal};
    ghost use Rattle.ev_links.specs.declared.chains.Spot.{Spot};

    ghost Value = { List (Spot × Goal) };

    ghost view = { λ f. f.given.entries };
}

/// What a value gives.
#[tactic(auto, unfolding(def_event::specs::Uses::name_of))]
fn goal_of(value: &Shown) -> Goal
    ensures { result ≡ goal (name_of value.now) }
{
    match value {
        Shown::Name(name) => Goal::To(name_label(name)),
        _ => Goal::Data,
    }
}

impl Firsts {
    /// Nothing. It takes no memory.
    fn new(alloc: Global) -> Firsts
        ensures { result ≡ [] }
    {
        Firsts {
            given: IndexMap::new(alloc),
        }
    }

    /// What is given for a name at a place.
    #[tactic(auto, unfolding(crate::specs::Following::goal_at))]
    fn find(&self, at: u64, name: Label) -> Option<Goal>
        ensures { result ≡ goal_at self.now (record { at = at; name = name }) }
    {
        self.given.get(&Spot { at, name }).copied()
    }

    /// Puts what is given for a name at a place, which has none.
    #[tactic(auto, unfolding(crate::specs::Following::goal_at))]
    fn put(&mut self, at: u64, name: Label, goal: Goal) -> Result<(), Memory>
        ensures { OnOk result (Puts (record { at = at; name = name }) goal self.old self.new) }
    {
        self.given.insert(Spot { at, name }, goal)?;
        Ok(())
    }

    /// Notes what is given for a name at a place, unless something was.
    fn note(&mut self, at: u64, name: Label, goal: Goal) -> Result<(), Memory>
        ensures { OnOk result (Noted (record { at = at; name = name }) goal (is_some (goal_at self.old (record { at = at; name = name }))) self.old self.new) }
    {
        if self.find(at, name).is_some() {
            return Ok(());
        }
        self.put(at, name, goal)
    }
}

/// Whether a label is of an object.
fn is_object(label: &Label) -> bool
    ensures { result ≡ is_object_label label.now }
{
    match label.kind {
        Kind::Object => true,
        _ => false,
    }
}

/// The name to which one leads, by what it settled to, else by its view.
fn next_of(settled: &Firsts, viewed: &Firsts, at: u64, name: Label) -> Option<Label>
    ensures { result ≡ next_of settled.now viewed.now at name }
{
    match settled.find(at, name) {
        Some(Goal::To(next)) => Some(next),
        Some(Goal::Data) => None,
        None => match viewed.find(at, name) {
            Some(Goal::To(next)) => Some(next),
            _ => None,
        },
    }
}

/// The name to which the chain of a name has come, if that is further on.
fn chain_end(plan: &Plan, told: &Ends, at: u64, name: Label) -> Option<Label>
    ensures { (settled viewed : Table) → ChainsStand plan.now told.now settled → IfSome result (λ end. Strides settled viewed at name end) }
{
    let Some(standing) = plan.find(at, name) else {
        return None;
    };
    let Some(end) = told.find(at, standing.chain) else {
        return None;
    };
    if end.place <= standing.place {
        return None;
    }
    Some(end.name)
}

/// The end of the chain of a name, as far as it has come, else the name to which it leads.
fn stride(
    settled: &Firsts,
    viewed: &Firsts,
    plan: &Plan,
    told: &Ends,
    at: u64,
    name: Label,
) -> Option<Label>
    ensures { is_object_label name ≡ false → ChainsStand plan.now told.now settled.now → StridesTo settled.now viewed.now at name result }
{
    match chain_end(plan, told, at, name) {
        Some(end) => Some(end),
        None => next_of(settled, viewed, at, name),
    }
}

/// The object to which a name leads at a place, where no name was seen yet. There is none where it comes to data, to an end, or back.
fn follow_in(
    seen: &mut Labels,
    settled: &Firsts,
    viewed: &Firsts,
    plan: &Plan,
    told: &Ends,
    at: u64,
    name: Label,
) -> Result<Option<Label>, Memory>
    ensures { seen.old ≡ [] → ChainsStand plan.now told.now settled.now → IfOk result (λ object. FollowsTo settled.now viewed.now at name object) }
{
    let mut current = name;
    while !is_object(&current) {
        let _count = seen.len();
        if seen.has(current) {
            return Ok(None);
        }
        seen.add(current)?;
        let Some(next) = stride(settled, viewed, plan, told, at, current) else {
            return Ok(None);
        };
        current = next;
    }
    Ok(Some(current))
}

/// Notes what a settle line gives.
#[tactic(auto, unfolding(def_event::specs::Uses::settles))]
fn note_settled(settled: &mut Firsts, at: u64, event: &Event) -> Result<(), Memory>
    ensures { OnOk result (NotedFor at (settles event.now) settled.old settled.new) }
{
    match event {
        Event::Settle(name, value) => settled.note(at, name_label(name), goal_of(value)),
        _ => Ok(()),
    }
}

/// Notes what a view line gives.
#[tactic(auto, unfolding(def_event::specs::Uses::views))]
fn note_viewed(viewed: &mut Firsts, at: u64, event: &Event) -> Result<(), Memory>
    ensures { OnOk result (NotedFor at (views event.now) viewed.old viewed.new) }
{
    match event {
        Event::View(name, view) => viewed.note(at, name_label(name), Goal::To(name_label(view))),
        _ => Ok(()),
    }
}

/// Whether a name stands right after another.
fn is_after(start: Standing, end: Standing) -> bool
    ensures { result ≡ true → (start.chain ≡ end.chain) × (end.place ≡ start.place + 1) }
{
    if start.chain != end.chain {
        return false;
    }
    if end.place == 0 {
        return false;
    }
    end.place - 1 == start.place
}

/// How far a chain has come, where its first name stands at 0.
fn place_told(end: Option<End>) -> u64
    ensures { result ≡ place_told end }
{
    match end {
        Some(end) => end.place,
        None => 0,
    }
}

/// A name settled to another. If that stands right after it, and the chain has come to the name, it has come to the other.
fn advance(plan: &Plan, told: &mut Ends, at: u64, from: Label, to: Label) -> Result<(), Memory>
    ensures { (settled : Table) (n : NameValue) → label (AName n) ≡ from → is_object_name n ≡ false → goal_at settled (record { at = at; name = from }) ≡ Some (ToName to)
        → ChainsStand plan.now told.old settled → OnOk result (ChainsStand plan.now told.new settled) }
{
    let Some(start) = plan.find(at, from) else {
        return Ok(());
    };
    let Some(end) = plan.find(at, to) else {
        return Ok(());
    };
    if !is_after(start, end) {
        return Ok(());
    }
    if place_told(told.find(at, end.chain)) != start.place {
        return Ok(());
    }
    let place = end.place;
    told.put(at, end.chain, End { place, name: to })
}

/// The chain of a name that settled may come further.
fn advance_from(
    settled: &Firsts,
    plan: &Plan,
    told: &mut Ends,
    at: u64,
    name: &Name,
) -> Result<(), Memory>
    ensures { ChainsStand plan.now told.old settled.now → OnOk result (ChainsStand plan.now told.new settled.now) }
{
    let from = name_label(name);
    if is_object(&from) {
        return Ok(());
    }
    let Some(goal) = settled.find(at, from) else {
        return Ok(());
    };
    match goal {
        Goal::To(to) => advance(plan, told, at, from, to),
        Goal::Data => Ok(()),
    }
}

/// The chain of the name that a line settles may come further.
fn tell_chain(
    settled: &Firsts,
    plan: &Plan,
    told: &mut Ends,
    at: u64,
    event: &Event,
) -> Result<(), Memory>
    ensures { ChainsStand plan.now told.old settled.now → OnOk result (ChainsStand plan.now told.new settled.now) }
{
    match event {
        Event::Settle(name, _) => advance_from(settled, plan, told, at, name),
        _ => Ok(()),
    }
}

/// What names settled to and have as their views, by the first line that says so of each at each place. Of chains that were planned,
/// how far they have come.
pub struct Following {
    settled: Firsts,
    viewed: Firsts,
    plan: Plan,
    told: Ends,
}

impl Drop for Following {
    fn drop(self) {
        let Self {
            settled: _settled,
            viewed: _viewed,
            plan: _plan,
            told: _told,
        } = self;
    }
}

impl Model for Following {
    ghost use Rattle.ev_known.specs.Following.{Tables};

    ghost Value = { Tables };

    ghost view = { λ f. record { settled = f.settled; viewed = f.viewed; plan = f.plan; told = f.told } };
}

impl Following {
    /// Nothing, with a plan of chains, which may be any. It takes no memory.
    #[tactic(auto, using(crate::proofs::Followed::none_stand))]
    pub fn new(alloc: Global, plan: Plan) -> Following
        ensures stands { PlanStands plan → TablesStand result [] }
        ensures plan { result.plan ≡ plan }
    {
        Following {
            settled: Firsts::new(alloc),
            viewed: Firsts::new(alloc),
            plan,
            told: Ends::new(alloc),
        }
    }

    /// Notes what a line at a place gives. Tables that stand for the lines before it stand for these and the line.
    pub fn tell_line(&mut self, at: u64, event: &Event) -> Result<(), Memory>
        ensures plan { OnOk result (self.new.plan ≡ self.old.plan) }
        ensures stands { (past : List Line) → TablesStand self.old past → OnOk result (TablesStand self.new (record { at = at; event = event.now } ∷ past)) }
    {
        note_settled(&mut self.settled, at, event)?;
        note_viewed(&mut self.viewed, at, event)?;
        tell_chain(&self.settled, &self.plan, &mut self.told, at, event)
    }

    /// The object to which a name leads at a place.
    pub fn follow(&self, alloc: Global, at: u64, name: &Name) -> Result<Option<Label>, Memory>
        ensures { (past : List Line) → TablesStand self.now past → IfOk result (λ object. FollowedAs past at name.now object) }
    {
        let start = name_label(name);
        let mut seen = Labels::new(alloc);
        follow_in(
            &mut seen,
            &self.settled,
            &self.viewed,
            &self.plan,
            &self.told,
            at,
            start,
        )
    }

    /// Where a name stands in the chains that were planned.
    pub fn standing(&self, at: u64, name: Label) -> Option<Standing>
        ensures { result ≡ standing self.now.plan.standings (record { at = at; name = name }) }
    {
        self.plan.find(at, name)
    }

    /// Whether a chain has come so far.
    pub fn is_told(&self, at: u64, standing: Standing) -> bool
        ensures { result ≡ is_told_in self.now.told at standing }
    {
        standing.place <= place_told(self.told.find(at, standing.chain))
    }
}
