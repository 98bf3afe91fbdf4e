//! What leads to what, and how far it leads.

ghost use Rattle.std.specs.Prelude.{◌≡◌, ◌<◌, [], Some, if◌then◌else◌, length, slice_get, MatchOption, OnOk};
ghost use Rattle.ev_links.specs.Links.{Adds, AreReached, has_label, is_open, no_links, row, with_label, with_others};

use crate::label::Label;
use ev_base::{Memory, Seq};
use indexmap::{IndexMap, IndexSet};
use std::alloc::Global;
use std::marker::Model;

/// How one thing leads to another.
#[derive(Clone, Copy)]
pub enum Way {
    /// A list and its members, at every place.
    Listed,
    /// A name and what settled it or is its view, at that place.
    Settled(u64),
}

/// Something that is led to, and how.
#[derive(Clone, Copy)]
pub struct Link {
    pub way: Way,
    pub other: Label,
}

/// The ways that are gone.
#[derive(Clone, Copy)]
pub enum Scope {
    /// From lists to their members alone.
    Lists,
    /// From lists to their members, and by what settled at a place.
    Place(u64),
    /// All.
    All,
}

/// Whether a way is gone.
pub fn is_open(scope: &Scope, way: &Way) -> bool
    ensures { result ≡ is_open scope.now way.now }
{
    match way {
        Way::Listed => true,
        Way::Settled(at) => match scope {
            Scope::Lists => false,
            Scope::Place(place) => at == place,
            Scope::All => true,
        },
    }
}

/// The links of each thing. Contracts see the rows, each with its thing.
pub struct Links {
    rows: IndexMap<Label, Seq<Link>>,
}

impl Drop for Links {
    fn drop(self) {
        let Self { rows: _rows } = self;
    }
}

impl Model for Links {
    ghost use Rattle.std.specs.Prelude.{List};
    ghost use Rattle.ev_links.specs.declared.label.Label.{Label};
    ghost use Rattle.ev_links.specs.declared.links.Link.{Link};

    ghost Value = { List (Label × List Link) };

    ghost view = { λ l. l.rows.entries };
}

/// The links of a thing, where it has any.
#[tactic(auto, unfolding(crate::specs::Links::row))]
fn row_of(rows: &IndexMap<Label, Seq<Link>>, label: Label) -> Option<&Seq<Link>>
    ensures { MatchOption result (row rows.now.entries label ≡ []) (λ links. links.now ≡ row rows.now.entries label) }
{
    rows.get(&label)
}

/// The links of a thing, taken out.
#[tactic(auto, unfolding(crate::specs::Links::row))]
fn take_row(alloc: Global, rows: &mut IndexMap<Label, Seq<Link>>, label: Label) -> Seq<Link>
    ensures links { result ≡ row rows.old.entries label }
    ensures others { no_links label rows.old.entries rows.new.entries }
{
    match rows.swap_remove(&label) {
        Some(links) => links,
        None => Seq::new(alloc),
    }
}

/// Adds a link of a thing to a table.
fn add_in(
    alloc: Global,
    rows: &mut IndexMap<Label, Seq<Link>>,
    label: Label,
    link: Link,
) -> Result<(), Memory>
    ensures { OnOk result (Adds label link rows.old.entries rows.new.entries) }
{
    let mut links = take_row(alloc, rows, label);
    links.push(link)?;
    rows.insert(label, links)?;
    Ok(())
}

/// Labels, each once, in the order in which they came.
pub struct Labels {
    set: IndexSet<Label>,
}

impl Drop for Labels {
    fn drop(self) {
        let Self { set: _set } = self;
    }
}

impl Model for Labels {
    ghost use Rattle.std.specs.Prelude.{List};
    ghost use Rattle.ev_links.specs.declared.label.Label.{Label};

    ghost Value = { List Label };

    ghost view = { λ l. l.set.keys };
}

/// Whether a set has a label.
#[tactic(auto, unfolding(crate::specs::Links::has_label))]
fn has_in(set: &IndexSet<Label>, label: Label) -> bool
    ensures { result ≡ has_label set.now.keys label }
{
    set.contains(&label)
}

/// Adds a label to a set.
#[tactic(auto, unfolding(crate::specs::Links::with_label))]
fn add_label(set: &mut IndexSet<Label>, label: Label) -> Result<(), Memory>
    ensures { OnOk result (set.new.keys ≡ with_label set.old.keys label) }
{
    set.insert_full(label)?;
    Ok(())
}

/// The label at a place.
fn label_at(set: &IndexSet<Label>, index: usize) -> Label
    requires { index < length set.now.keys }
    ensures { slice_get set.now.keys index ≡ Some result }
{
    set.as_slice()[index]
}

/// Adds what a link leads to, if its way is gone.
fn add_other(set: &mut IndexSet<Label>, scope: &Scope, link: &Link) -> Result<(), Memory>
    ensures { OnOk result (set.new.keys ≡ (if is_open scope.now link.now.way then with_label set.old.keys link.now.other else set.old.keys)) }
{
    if is_open(scope, &link.way) {
        return add_label(set, link.other);
    }
    Ok(())
}

/// Adds what links lead to.
fn add_others(set: &mut IndexSet<Label>, scope: &Scope, links: &[Link]) -> Result<(), Memory>
    ensures { OnOk result (set.new.keys ≡ with_others scope.now set.old.keys links.now) }
{
    for link in links {
        add_other(set, scope, link)?;
    }
    Ok(())
}

/// Adds what the links of a thing lead to.
fn add_row(
    rows: &IndexMap<Label, Seq<Link>>,
    scope: &Scope,
    label: Label,
    set: &mut IndexSet<Label>,
) -> Result<(), Memory>
    ensures { OnOk result (set.new.keys ≡ with_others scope.now set.old.keys (row rows.now.entries label)) }
{
    let Some(links) = row_of(rows, label) else {
        return Ok(());
    };
    add_others(set, scope, links.as_slice())
}

/// Adds all that is reached.
fn add_reached(
    rows: &IndexMap<Label, Seq<Link>>,
    scope: &Scope,
    set: &mut IndexSet<Label>,
) -> Result<(), Memory>
    ensures { OnOk result (AreReached rows.now.entries scope.now set.old.keys set.new.keys) }
{
    let mut index = 0;
    while index < set.len() {
        let label = label_at(set, index);
        add_row(rows, scope, label, set)?;
        index += 1;
    }
    Ok(())
}

impl Labels {
    /// No label. It takes no memory.
    pub fn new(alloc: Global) -> Labels
        ensures { result ≡ [] }
    {
        Labels {
            set: IndexSet::new(alloc),
        }
    }

    /// Whether a label is there.
    pub fn has(&self, label: Label) -> bool
        ensures { result ≡ has_label self.now label }
    {
        has_in(&self.set, label)
    }

    /// Adds a label, unless it is there.
    pub fn add(&mut self, label: Label) -> Result<(), Memory>
        ensures { OnOk result (self.new ≡ with_label self.old label) }
    {
        add_label(&mut self.set, label)
    }

    /// The labels, lent in order.
    pub fn as_slice(&self) -> &[Label]
        ensures { result.now ≡ self.now }
    {
        self.set.as_slice()
    }

    /// How many there are.
    pub fn len(&self) -> usize
        ensures { result ≡ length self.now }
    {
        self.set.len()
    }

    /// The label at a place.
    pub fn at(&self, index: usize) -> Label
        requires { index < length self.now }
        ensures { slice_get self.now index ≡ Some result }
    {
        label_at(&self.set, index)
    }
}

impl Links {
    /// No links. It takes no memory.
    pub fn new(alloc: Global) -> Links
        ensures { result ≡ [] }
    {
        Links {
            rows: IndexMap::new(alloc),
        }
    }

    /// Adds a link of a thing.
    pub fn add(&mut self, alloc: Global, label: Label, link: Link) -> Result<(), Memory>
        ensures { OnOk result (Adds label link self.old self.new) }
    {
        add_in(alloc, &mut self.rows, label, link)
    }

    /// The links of a thing, lent in the order in which they were added.
    pub fn row(&self, label: Label) -> &[Link]
        ensures { result.now ≡ row self.now label }
    {
        match row_of(&self.rows, label) {
            Some(links) => links.as_slice(),
            None => &[],
        }
    }

    /// Adds to labels what the links of a thing lead to.
    pub fn go_on(&self, scope: &Scope, label: Label, labels: &mut Labels) -> Result<(), Memory>
        ensures { OnOk result (labels.new ≡ with_others scope.now labels.old (row self.now label)) }
    {
        add_row(&self.rows, scope, label, &mut labels.set)
    }

    /// Adds to labels all that is reached from them by the ways of a scope. Time grows with the links of what is reached.
    pub fn reach(&self, scope: &Scope, labels: &mut Labels) -> Result<(), Memory>
        ensures { OnOk result (AreReached self.now scope.now labels.old labels.new) }
    {
        add_reached(&self.rows, scope, &mut labels.set)
    }
}
