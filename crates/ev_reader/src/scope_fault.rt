//! Why a tree is not scoped.

use ev_base::{Memory, NodeId};
use std::error::Error;
use std::fmt;

/// The first node of a tree whose name is not rightly bound.
#[derive(Clone, Copy, Debug)]
pub enum ScopeFault {
    /// A noun that is used or assigned where no such name is visible.
    Unbound(NodeId),
    /// A noun that is assigned and was not bound by a `var` pattern.
    AssignToFinal(NodeId),
    /// A pattern whose name is bound in its scope already.
    BoundTwice(NodeId),
    Memory,
}

impl fmt::Display for ScopeFault {
    ghost use Rattle.std.specs.Prelude.{Some};
    ghost use Rattle.ev_reader.specs.Faults.{fault_text};

    ghost output = { λ fault. Some (fault_text fault) };

    fn fmt<W: fmt::Write>(&self, f: &mut fmt::Formatter<W>) -> fmt::Result {
        match self {
            ScopeFault::Unbound(id) => write!(f, "unbound noun at node {}", id.0),
            ScopeFault::AssignToFinal(id) => write!(f, "final noun assigned at node {}", id.0),
            ScopeFault::BoundTwice(id) => write!(f, "noun bound twice at node {}", id.0),
            ScopeFault::Memory => write!(f, "out of memory"),
        }
    }
}

impl Error for ScopeFault {}

impl From<Memory> for ScopeFault {
    ghost use Rattle.std.specs.Prelude.{◌≡◌};
    ghost use Rattle.ev_reader.specs.declared.scope_fault.ScopeFault.TheVariants.{Memory as NoMemory};

    ghost from_gives = { λ _ e. e ≡ NoMemory };

    fn from(_error: Memory) -> ScopeFault {
        ScopeFault::Memory
    }
}
