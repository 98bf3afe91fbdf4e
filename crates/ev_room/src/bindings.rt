//! What the nouns of a scope stand for.

ghost use Rattle.std.specs.Prelude.{◌≡◌, ◌≤◌, ◌++◌, ◌∷◌, [], None, Some, OnErr, OnOk, drop, length, map, reverse, take};
ghost use Rattle.ev_room.specs.Acts.{found_from};
ghost use Rattle.ev_room.specs.Held.{binding_back, bound_back, outermost};

use crate::scope::{Binding, Bound};
use ev_base::{Memory, Seq, Word};
use ev_heap::{Capture, Caught, Shared};
use std::alloc::Global;
use std::marker::Model;
use std::mem;

/// What nouns stand for, the innermost last: first what an object holds, which all its calls share, and behind it what was bound since.
/// Contracts see the list of all.
pub struct Nouns {
    held: Option<Shared<Caught>>,
    /// How many of those that are held are in scope, from the outermost on, which is the last.
    shown: usize,
    own: Seq<Binding>,
    count: usize,
}

impl Drop for Nouns {
    fn drop(self) {
        let Self {
            held: _held,
            shown: _,
            own: _own,
            count: _,
        } = self;
    }
}

impl Model for Nouns {
    ghost use Rattle.std.specs.Prelude.{List, length, ◌++◌, ◌+◌, ◌≡◌, ◌≤◌};
    ghost use Rattle.ev_room.specs.Held.{outermost, those};
    ghost use Rattle.ev_room.specs.declared.scope.Binding.{Binding};

    ghost Value = { List Binding };

    ghost view = { λ n. outermost n.shown n.held ++ n.own };

    ghost invariant = { λ n. (n.shown ≤ length (those n.held)) × (n.count ≡ n.shown + length n.own) };
}

/// What a name was bound to that an object holds so.
fn bound_back(capture: Capture) -> Bound
    ensures { result ≡ bound_back capture }
{
    match capture {
        Capture::Fixed { value, guard } => Bound::Fixed { value, guard },
        Capture::Slot(slot) => Bound::Slot(slot),
    }
}

/// What the last binding of a noun binds it to.
#[tactic(auto, using(crate::proofs::Finding::last_is, crate::proofs::Finding::last_is_not), unfolding(crate::specs::Acts::found_from))]
#[inline(always)]
fn found_last(nouns: &[Binding], noun: &Word) -> Option<Bound>
    ensures { result ≡ found_from None nouns.now noun.now }
{
    let mut rest = nouns.len();
    while rest > 0 {
        rest -= 1;
        let binding = &nouns[rest];
        if binding.noun.is(noun) {
            return Some(binding.bound);
        }
    }
    None
}

/// What the first that is held of a noun, behind so many, was bound to.
#[tactic(auto, using(crate::proofs::Finding::first_is, crate::proofs::Finding::first_is_not), unfolding(crate::specs::Acts::found_from))]
#[inline(always)]
fn found_held(held: &[Caught], gone: usize, noun: &Word) -> Option<Bound>
    ensures { result ≡ found_from None (reverse (map binding_back (drop gone held.now))) noun.now }
{
    let mut at = gone;
    while at < held.len() {
        let one = &held[at];
        if one.noun.is(noun) {
            return Some(bound_back(one.capture));
        }
        at += 1;
    }
    None
}

/// What the innermost binding of a noun binds it to, of so many of the outermost that are held.
#[tactic(auto, using(crate::proofs::Finding::outermost_last))]
#[inline(always)]
fn found_shown(held: &Shared<Caught>, shown: usize, noun: &Word) -> Option<Bound>
    requires { shown ≤ length held.now }
    ensures { result ≡ found_from None (outermost shown (Some held.now)) noun.now }
{
    found_held(held.as_slice(), held.len() - shown, noun)
}

/// The first so many.
fn first(own: Seq<Binding>, count: usize) -> Seq<Binding>
    ensures { result ≡ take count own }
{
    let mut own = own.into_vec();
    own.truncate(count);
    Seq::of(own)
}

impl Nouns {
    /// None.
    pub fn new(alloc: Global) -> Nouns
        ensures { result ≡ [] }
    {
        Nouns {
            held: None,
            shown: 0,
            own: Seq::new(alloc),
            count: 0,
        }
    }

    /// These, and nothing that an object holds.
    pub fn of(own: Seq<Binding>) -> Nouns
        ensures { result ≡ own }
    {
        let count = own.len();
        Nouns {
            held: None,
            shown: 0,
            own,
            count,
        }
    }

    /// What an object holds, of which the first is the innermost.
    #[tactic(auto, using(crate::proofs::Finding::held_alone))]
    pub fn inside(alloc: Global, held: Shared<Caught>) -> Nouns
        ensures { result ≡ reverse (map binding_back held) }
    {
        let count = held.len();
        Nouns {
            held: Some(held),
            shown: count,
            own: Seq::new(alloc),
            count,
        }
    }

    /// How many there are.
    #[tactic(auto, using(crate::proofs::Finding::outermost_count))]
    pub fn len(&self) -> usize
        ensures { result ≡ length self.now }
    {
        self.count
    }

    /// One more, which is now the innermost, or a refusal, which leaves them as they were.
    #[tactic(auto, using(crate::proofs::Finding::pushed_behind))]
    pub fn push(&mut self, binding: Binding) -> Result<(), Memory>
        ensures ok { OnOk result (self.new ≡ self.old ++ binding ∷ []) }
        ensures err { OnErr result (self.new ≡ self.old) }
    {
        let Some(count) = self.count.checked_add(1) else {
            return Err(Memory);
        };
        self.own.push(binding)?;
        self.count = count;
        Ok(())
    }

    /// Takes away all but so many of the outermost.
    #[tactic(auto, using(crate::proofs::Finding::cut_held, crate::proofs::Finding::cut_own, crate::proofs::Finding::cut_none))]
    pub fn cut(&mut self, alloc: Global, mark: usize)
        ensures { self.new ≡ take mark self.old }
    {
        if mark < self.shown {
            self.shown = mark;
            self.own = Seq::new(alloc);
            self.count = mark;
        } else if mark < self.count {
            let own = mem::replace(&mut self.own, Seq::new(alloc));
            self.own = first(own, mark - self.shown);
            self.count = mark;
        }
    }

    /// What the innermost binding of a noun binds it to.
    #[tactic(auto, using(crate::proofs::Finding::own_found, crate::proofs::Finding::own_none))]
    #[inline(always)]
    pub fn found(&self, noun: &Word) -> Option<Bound>
        ensures { result ≡ found_from None self.now noun.now }
    {
        match found_last(self.own.as_slice(), noun) {
            Some(bound) => Some(bound),
            None => match &self.held {
                Some(held) => found_shown(held, self.shown, noun),
                None => None,
            },
        }
    }
}
