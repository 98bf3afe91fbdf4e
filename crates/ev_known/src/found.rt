//! What activations were found to know, so that it is not sought again.

ghost use Rattle.std.specs.Prelude.{◌≡◌, [], OnOk, length};
ghost use Rattle.ev_known.specs.Found.{is_found, with_found};

use crate::facts::Activation;
use ev_base::Memory;
use ev_links::Label;
use indexmap::IndexSet;
use std::alloc::Global;
use std::marker::Model;

/// A thing, and an activation that knows it.
#[derive(Clone, Copy, PartialEq, Eq, Hash)]
pub struct Finding {
    pub by: Activation,
    pub thing: Label,
}

/// What was found. Contracts see it as a list, in which each stands once.
pub struct Found {
    set: IndexSet<Finding>,
}

impl Drop for Found {
    fn drop(self) {
        let Self { set: _set } = self;
    }
}

impl Model for Found {
    ghost use Rattle.std.specs.Prelude.{List};
    ghost use Rattle.ev_known.specs.declared.found.Finding.{Finding};

    ghost Value = { List Finding };

    ghost view = { λ f. f.set.keys };
}

impl Found {
    /// Nothing was found. It takes no memory.
    pub fn new(alloc: Global) -> Found
        ensures { result ≡ [] }
    {
        Found {
            set: IndexSet::new(alloc),
        }
    }

    /// Whether it was found.
    #[tactic(auto, unfolding(crate::specs::Found::is_found))]
    pub fn has(&self, finding: Finding) -> bool
        ensures { result ≡ is_found self.now finding }
    {
        self.set.contains(&finding)
    }

    /// How much was found.
    pub fn len(&self) -> usize
        ensures { result ≡ length self.now }
    {
        self.set.len()
    }

    /// What was found is let go. The memory is kept.
    pub fn clear(&mut self)
        ensures { self.new ≡ [] }
    {
        self.set.clear();
    }

    /// It is found.
    #[tactic(auto, unfolding(crate::specs::Found::with_found))]
    pub fn add(&mut self, finding: Finding) -> Result<(), Memory>
        ensures { OnOk result (self.new ≡ with_found self.old finding) }
    {
        self.set.insert_full(finding)?;
        Ok(())
    }
}
