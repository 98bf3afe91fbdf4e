//! Whether the members of a list lead back to a name.

ghost use Rattle.std.specs.Prelude.{◌≡◌, ◌<◌, ◌∷◌, [], IfOk, IsTrue, MatchOption, OnOk, false, length, replicate, slice_get, slice_set, suc, true};
ghost use Rattle.std.specs.List.{list_any};
ghost use Rattle.ev_base.specs.declared.values.Value.TheVariants.{List};
ghost use Rattle.ev_refs.specs.Follow.{followed};
ghost use Rattle.ev_refs.specs.Leading.{is_name, is_unmet, leads_back, list_of, lists_in, lists_of, meet, meet_all, members_at};

use crate::refs::Refs;
use ev_base::{ListId, Memory, PromId, Value};
use ev_heap::Heap;
use std::alloc::Global;
use std::marker::Model;

/// Which lists a search has met, and those whose members are still to be looked at. Contracts see the next one first.
#[derive(Drop)]
pub struct Search {
    met: Vec<bool>,
    left: Vec<u64>,
}

impl Model for Search {
    ghost use Rattle.std.specs.Prelude.{reverse};
    ghost use Rattle.ev_refs.specs.Leading.{Searching};

    ghost Value = { Searching };

    ghost view = { λ s. record { met = s.met.items; left = reverse s.left.items } };
}

impl Search {
    /// Nothing is met of so many lists.
    fn new(alloc: Global, count: u64) -> Result<Search, Memory>
        ensures { IfOk result (λ s. s ≡ record { met = replicate count false; left = [] }) }
    {
        Ok(Search {
            met: vec![in alloc; false; count as usize]?,
            left: Vec::new(alloc),
        })
    }

    /// Whether a list is there and was not met.
    fn is_new(&self, list: u64) -> bool
        ensures is { result ≡ is_unmet (slice_get self.now.met list) }
        ensures there { IsTrue result → list < length self.now.met }
    {
        let Some(met) = self.met.get(list as usize) else {
            return false;
        };
        if *met {
            return false;
        }
        true
    }

    /// A list that is there is to be looked at.
    fn add(&mut self, list: u64) -> Result<(), Memory>
        requires { list < length self.old.met }
        ensures { OnOk result (self.new ≡ record { met = slice_set self.old.met list true; left = list ∷ self.old.left }) }
    {
        self.left.push(list)?;
        self.met[list as usize] = true;
        Ok(())
    }

    /// A list is to be looked at, unless it was met, or is not there.
    #[tactic(auto, unfolding(crate::specs::Leading::meet, crate::specs::Leading::meet_if))]
    fn meet(&mut self, list: Option<u64>) -> Result<(), Memory>
        ensures { OnOk result (self.new ≡ meet list self.old) }
    {
        match list {
            None => Ok(()),
            Some(list) => {
                if self.is_new(list) {
                    return self.add(list);
                }
                Ok(())
            }
        }
    }

    /// The next list to be looked at.
    fn next(&mut self) -> Option<u64>
        ensures { MatchOption result ((self.old.left ≡ []) × (self.new ≡ self.old)) (λ n. self.old ≡ record self.new { left = n ∷ self.new.left }) }
    {
        self.left.pop()
    }
}

/// The list that a value is.
fn list_in(value: Value) -> Option<u64>
    ensures { result ≡ list_of value }
{
    match value {
        Value::List(list) => Some(list.0),
        _ => None,
    }
}

/// Whether a value is that name.
fn is_that(name: PromId, value: Value) -> bool
    ensures { result ≡ is_name name value }
{
    match value {
        Value::Prom(other) => other.0 == name.0,
        _ => false,
    }
}

/// The members of a list of the heap, or none where it is not there.
fn members_in(heap: &Heap, list: u64) -> &[Value]
    ensures { result.now ≡ members_at (lists_in heap.now) list }
{
    if list < heap.list_count() {
        heap.members(ListId(list))
    } else {
        &[]
    }
}

impl Refs {
    /// Whether one of these is followed to that name.
    fn is_named(&self, name: PromId, members: &[Value]) -> bool
        ensures { result ≡ list_any (λ v. is_name name (followed self.now v)) members.now }
    {
        for member in members {
            if is_that(name, self.deref(*member)) {
                return true;
            }
        }
        false
    }

    /// The lists to which these are followed are to be looked at.
    #[tactic(auto, unfolding(crate::specs::Leading::meet_all))]
    fn meet_members(&self, search: &mut Search, members: &[Value]) -> Result<(), Memory>
        ensures { OnOk result (search.new ≡ meet_all (lists_of self.now members.now) search.old) }
    {
        for member in members {
            search.meet(list_in(self.deref(*member)))?;
        }
        Ok(())
    }

    /// Whether the members of a list, each followed, any number of times, lead to a name. Each list is looked at once at most.
    pub fn list_leads_back(&self, heap: &Heap, name: PromId, list: ListId) -> Result<bool, Memory>
        ensures { IfOk result (λ back. back ≡ leads_back (suc (length (lists_in heap.now))) self.now (lists_in heap.now) name (List list)) }
    {
        let mut search = Search::new(self.alloc, heap.list_count())?;
        search.meet(Some(list.0))?;
        while let Some(next) = search.next() {
            let members = members_in(heap, next);
            if self.is_named(name, members) {
                return Ok(true);
            }
            self.meet_members(&mut search, members)?;
        }
        Ok(false)
    }
}
