//! Numbers that a step tells of, and their names.

ghost use Rattle.std.specs.Prelude.{◌≡◌, ◌++◌, ◌∷◌, [], None, OnOk, map};
ghost use Rattle.ev_resident.specs.Names.{told_at, with_told};

use ev_base::{Memory, Name, PromId};
use indexmap::IndexMap;
use std::alloc::Global;
use std::marker::Model;

/// How many numbers are found by looking at each.
const FEW: usize = 8;

/// Numbers that a step tells of, and their names. The first that is told of a number counts.
///
/// Most steps tell of few, and these stand in a row. Those behind them stand in a map, so that each is found at once in a long step too.
pub struct Told {
    few: Vec<(u64, Name)>,
    more: IndexMap<u64, Name>,
}

impl Drop for Told {
    fn drop(self) {
        let Self {
            few: _few,
            more: _more,
        } = self;
    }
}

impl Model for Told {
    ghost use Rattle.std.specs.Prelude.{List, ◌++◌, map};
    ghost use Rattle.ev_resident.specs.Names.{Entry};

    ghost Value = { List Entry };

    ghost view = { λ t. map (λ e. record { number = e.0; name = e.1 }) (t.few.items ++ t.more.entries) };
}

/// The name of a number in a row of these.
#[tactic(auto, unfolding(crate::specs::Names::told_at))]
fn found(row: &[(u64, Name)], number: u64) -> Option<Name>
    ensures { result ≡ told_at number (map (λ e. record { number = e.0; name = e.1 }) row.now) }
{
    for entry in row {
        if entry.0 == number {
            return Some(entry.1);
        }
    }
    None
}

impl Told {
    /// Nothing is told. It takes no memory.
    pub fn new(alloc: Global) -> Told
        ensures { result ≡ [] }
    {
        Told {
            few: Vec::new(alloc),
            more: IndexMap::new(alloc),
        }
    }

    /// A number has a name, unless one was told of it before.
    pub fn tell(&mut self, number: PromId, name: Name) -> Result<(), Memory>
        ensures { OnOk result (self.new ≡ with_told (record { number = number; name = name }) self.old) }
    {
        self.put(number.0, name)
    }

    /// The name of a number, where one was told.
    pub fn at(&self, number: PromId) -> Option<Name>
        ensures { result ≡ told_at number self.now }
    {
        self.seen(number.0)
    }

    fn seen(&self, number: u64) -> Option<Name>
        ensures { result ≡ told_at number self.now }
    {
        if let Some(name) = found(self.few.as_slice(), number) {
            return Some(name);
        }
        if self.more.is_empty() {
            return None;
        }
        self.more.get(&number).copied()
    }

    /// A number of which nothing was told yet has a name.
    fn add(&mut self, number: u64, name: Name) -> Result<(), Memory>
        requires new { told_at number self.old ≡ None }
        ensures { OnOk result (self.new ≡ self.old ++ record { number = number; name = name } ∷ []) }
    {
        if self.more.is_empty() && self.few.len() < FEW {
            self.few.push((number, name))?;
            return Ok(());
        }
        self.more.insert(number, name)?;
        Ok(())
    }

    fn put(&mut self, number: u64, name: Name) -> Result<(), Memory>
        ensures { OnOk result (self.new ≡ with_told (record { number = number; name = name }) self.old) }
    {
        match self.seen(number) {
            Some(_) => Ok(()),
            None => self.add(number, name),
        }
    }
}
