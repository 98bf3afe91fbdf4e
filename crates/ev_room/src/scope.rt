//! What nouns stand for.

ghost use Rattle.std.specs.Prelude.{◌≡◌};
ghost use Rattle.ev_room.specs.Acts.{cut};

use crate::bindings::Nouns;
use ev_base::{ActId, PrimId, SlotId, Value, Word};
use ev_heap::GuardKind;
use std::alloc::Global;

/// The guard of a name that has none, which takes any value.
pub const NO_GUARD: GuardKind = GuardKind::Native(PrimId(8));

/// What a noun stands for.
#[derive(Clone, Copy)]
pub enum Bound {
    /// A value, for good, and the guard under which it was bound.
    Fixed { value: Value, guard: GuardKind },
    /// A var slot.
    Slot(SlotId),
}

/// A noun, and what it is bound to.
pub struct Binding {
    pub noun: Word,
    pub bound: Bound,
}

impl Drop for Binding {
    fn drop(self) {
        let Self {
            noun: _noun,
            bound: _,
        } = self;
    }
}

/// The activation that evaluates, and what its nouns stand for, the innermost last.
pub struct Scope {
    pub act: ActId,
    pub nouns: Nouns,
}

impl Drop for Scope {
    fn drop(self) {
        let Self {
            act: _,
            nouns: _nouns,
        } = self;
    }
}

/// Takes away the bindings behind so many. What was bound before a node of a tree stands in front of what it binds, so this
/// brings back the scope before it.
pub fn cut(alloc: Global, mark: usize, here: &mut Scope)
    ensures { here.new ≡ cut mark here.old }
{
    here.nouns.cut(alloc, mark);
}
