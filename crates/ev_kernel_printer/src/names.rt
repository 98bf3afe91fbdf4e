//! The names that are bound and the free names that were found.

ghost use Rattle.std.specs.Prelude.{◌≡◌, [], length, reverse, OnOk};
ghost use Rattle.def_machine.specs.Free.{Walk, same_words, has_words, uses, binds};
ghost use Rattle.ev_kernel_printer.specs.Walks.{keep};

use ev_base::{Memory, Seq, Str};
use std::alloc::Global;
use std::marker::Model;

/// The names that are bound, and those that were used and are not. Contracts see the name that was bound last first.
#[derive(Drop)]
pub struct Names {
    bound: Vec<Str>,
    free: Seq<Str>,
}

impl Model for Names {
    ghost use Rattle.std.specs.Prelude.{reverse};
    ghost use Rattle.def_machine.specs.Free.{Walk};

    ghost Value = { Walk };

    ghost view = { λ n. record { bound = reverse n.bound.items; free = n.free } };
}

/// Whether two words are one.
#[tactic(auto, using(crate::proofs::Words::same_bytes))]
fn is_same(a: &str, b: &str) -> bool
    ensures { result ≡ same_words a.now b.now }
{
    a == b
}

/// Whether a name is among these.
#[tactic(auto, unfolding(def_machine::specs::Free::has_words))]
fn has(name: &str, names: &[Str]) -> bool
    ensures { result ≡ has_words name.now names.now }
{
    for other in names {
        if is_same(name, other.as_str()) {
            return true;
        }
    }
    false
}

/// Whether a name is among these, sought from the last one on.
#[tactic(auto, unfolding(def_machine::specs::Free::has_words))]
fn has_last(name: &str, names: &[Str]) -> bool
    ensures { result ≡ has_words name.now (reverse names.now) }
{
    let mut count = names.len();
    while count > 0 {
        count -= 1;
        if is_same(name, names[count].as_str()) {
            return true;
        }
    }
    false
}

impl Names {
    /// No name.
    pub fn new(alloc: Global) -> Names
        ensures { result ≡ record { bound = []; free = [] } }
    {
        Names {
            bound: Vec::new(alloc),
            free: Seq::new(alloc),
        }
    }

    /// How many names are bound.
    pub fn count(&self) -> usize
        ensures { result ≡ length self.now.bound }
    {
        self.bound.len()
    }

    /// A name is used.
    #[tactic(auto, unfolding(def_machine::specs::Free::uses))]
    pub fn add_use(&mut self, alloc: Global, name: &str) -> Result<(), Memory>
        ensures { OnOk result (self.new ≡ uses name.now self.old) }
    {
        if has_last(name, self.bound.as_slice()) {
            return Ok(());
        }
        if has(name, self.free.as_slice()) {
            return Ok(());
        }
        self.free.push(Str::copy_of(alloc, name)?)?;
        Ok(())
    }

    /// A name is bound.
    #[tactic(auto, unfolding(def_machine::specs::Free::binds))]
    pub fn bind(&mut self, alloc: Global, name: &str) -> Result<(), Memory>
        ensures { OnOk result (self.new ≡ binds name.now self.old) }
    {
        self.bound.push(Str::copy_of(alloc, name)?)?;
        Ok(())
    }

    /// The names that were bound last are bound no more, but for so many.
    #[tactic(auto, using(crate::proofs::Words::kept_last))]
    pub fn keep(&mut self, count: usize)
        ensures { self.new ≡ keep count self.old }
    {
        self.bound.truncate(count);
    }

    /// The free names, in the order of first use.
    pub fn into_free(self) -> Seq<Str>
        ensures { result ≡ self.free }
    {
        let Names { bound: _, free } = self;
        free
    }
}
