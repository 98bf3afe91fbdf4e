//! What a heap keeps.

use crate::shared::Shared;
use ev_base::{NodeId, ObjId, PrimId, PromId, Seq, SlotId, Value, Word};

/// The guard under which a name is bound: a native guard, or an object.
#[derive(Clone, Copy)]
pub enum GuardKind {
    Native(PrimId),
    User(ObjId),
}

/// What an object holds of a name that its code uses.
#[derive(Clone, Copy)]
pub enum Capture {
    /// A name that was bound finally: its value, and its guard.
    Fixed { value: Value, guard: GuardKind },
    /// A name that was bound by `var`.
    Slot(SlotId),
}

/// A name that an object's code uses, and what the object holds of it. Its own name is bound finally to it.
pub struct Caught {
    pub noun: Word,
    pub capture: Capture,
}

impl Drop for Caught {
    fn drop(self) {
        let Self {
            noun: _noun,
            capture: _,
        } = self;
    }
}

/// What an auditor may know of how a free name of the object that it judges is bound.
#[derive(Clone, Copy)]
pub enum Bound {
    /// It is of the safe scope.
    Safe,
    /// It is the object's own name.
    Itself,
    /// Finally, under this guard.
    Final(GuardKind),
    /// To a var slot.
    Mutable,
}

/// A free name of the methods and matchers of an object, and how it is bound.
pub struct FreeName {
    pub noun: Word,
    pub bound: Bound,
}

impl Drop for FreeName {
    fn drop(self) {
        let Self {
            noun: _noun,
            bound: _,
        } = self;
    }
}

/// What an auditor may know of an object that is being made: the node of its object expression, and its free names in order
/// of first use.
pub struct AuditView {
    pub node: NodeId,
    pub names: Seq<FreeName>,
}

impl Drop for AuditView {
    fn drop(self) {
        let Self {
            node: _,
            names: _names,
        } = self;
    }
}

/// What bears a number of a vat's one count of objects.
pub enum Shape {
    /// An object of the program: the node of its object expression, its captures in order of first use, which its calls share, and
    /// its stamps.
    Made {
        node: NodeId,
        captures: Shared<Caught>,
        stamps: Seq<Value>,
    },
    Ejector,
    /// The resolver of a promise.
    Resolver(PromId),
    /// An audition, which answers from this view.
    Audition(AuditView),
}

impl Drop for Shape {
    fn drop(self) {
        match self {
            Self::Made {
                node: _,
                captures: _captures,
                stamps: _stamps,
            } => {}
            Self::Ejector => {}
            Self::Resolver(_) => {}
            Self::Audition(_audit_view) => {}
        }
    }
}

/// A shape, and whether it is alive.
pub struct Thing {
    pub shape: Shape,
    pub alive: bool,
}

impl Drop for Thing {
    fn drop(self) {
        let Self {
            shape: _shape,
            alive: _,
        } = self;
    }
}

/// A var slot: the guard of what is written to it, and its value.
#[derive(Clone, Copy)]
pub struct Cell {
    pub guard: GuardKind,
    pub value: Value,
}

/// A list: its members, its weight and its height, and whether it holds data alone, with no name at any depth.
pub struct Listed {
    pub members: Seq<Value>,
    pub weight: u64,
    pub height: u64,
    pub plain: bool,
}

impl Drop for Listed {
    fn drop(self) {
        let Self {
            members: _members,
            weight: _,
            height: _,
            plain: _,
        } = self;
    }
}
