//! The expansion of a surface tree.

ghost use Rattle.std.specs.Prelude.{◌≡◌};
ghost use Rattle.ev_expand.specs.Expanded.{Answers, IsRefusal, expanded, fault_of};

use crate::marks::{Fault, FaultKind, Marks, closed, marked, marks_at};
use crate::reads::piece_at;
use crate::table;
use def_kernel::Kernel;
use def_syntax::Sugar;
use ev_base::{Memory, NodeId};
use ev_piece::placed;
use std::alloc::Global;
use std::error::Error;
use std::fmt;

/// Why a surface tree is not expanded. Each place is the number of a token.
#[derive(Clone, Copy, Debug)]
pub enum ExpandFault {
    /// A `return` round which the innermost `to`, `def f()`, `method`, `match`, `fn` or `when` is neither of the first two,
    /// or round which there is none.
    MisplacedReturn(u64),
    /// A `break` or `continue` with no loop round it inside the innermost of these six.
    MisplacedBreak(u64),
    /// A noun that begins with `__`, or a name of the safe scope that a pattern or an object binds or an assignment
    /// assigns.
    ReservedName(u64),
    Memory,
}

impl fmt::Display for ExpandFault {
    ghost use Rattle.std.specs.Prelude.{Some};
    ghost use Rattle.ev_expand.specs.Faults.{fault_text};

    ghost output = { λ fault. Some (fault_text fault) };

    fn fmt<W: fmt::Write>(&self, f: &mut fmt::Formatter<W>) -> fmt::Result {
        match self {
            ExpandFault::MisplacedReturn(token) => write!(f, "misplaced return at token {token}"),
            ExpandFault::MisplacedBreak(token) => write!(f, "misplaced break at token {token}"),
            ExpandFault::ReservedName(token) => write!(f, "reserved name at token {token}"),
            ExpandFault::Memory => write!(f, "out of memory"),
        }
    }
}

impl Error for ExpandFault {}

impl From<Memory> for ExpandFault {
    ghost use Rattle.std.specs.Prelude.{◌≡◌};
    ghost use Rattle.ev_expand.specs.declared.expansion.ExpandFault.TheVariants.{Memory as NoMemory};

    ghost from_gives = { λ _ e. e ≡ NoMemory };

    fn from(_error: Memory) -> ExpandFault {
        ExpandFault::Memory
    }
}

/// The first fault of the whole tree.
#[tactic(auto, unfolding(crate::specs::Expanded::fault_of))]
fn fault_of(marks: &[Marks], root: NodeId) -> Option<Fault>
    ensures { result ≡ fault_of marks.now root }
{
    closed(marks_at(marks, root)).fault
}

/// The answer that tells a fault.
fn refusal(fault: Fault) -> ExpandFault
    ensures { IsRefusal result fault }
{
    match fault.kind {
        FaultKind::Return => ExpandFault::MisplacedReturn(fault.token),
        FaultKind::Break => ExpandFault::MisplacedBreak(fault.token),
        FaultKind::Name => ExpandFault::ReservedName(fault.token),
    }
}

/// The kernel tree of a surface tree.
///
/// Each node is expanded by its parts, which stand before it among the nodes of the surface tree. The nodes of the answer
/// are numbered as its form is read from left to right.
///
/// # Errors
///
/// `MisplacedReturn`, `MisplacedBreak` and `ReservedName` exactly where the tree has such a fault and none at an earlier
/// token, with that token, and `Memory` where memory runs out.
#[tactic(auto, unfolding(crate::specs::Expanded::expanded, crate::specs::Expanded::expanded_with, crate::specs::Expanded::tree_of))]
pub fn expand(alloc: Global, tree: &Sugar) -> Result<Kernel, ExpandFault>
    ensures { Answers result (expanded tree.now.nodes tree.now.root) }
{
    let nodes = tree.nodes();
    let marks = marked(alloc, nodes)?;
    if let Some(fault) = fault_of(marks.as_slice(), tree.root) {
        return Err(refusal(fault));
    }
    let parts = table::expanded(alloc, marks.as_slice(), nodes)?;
    let piece = piece_at(alloc, parts.as_slice(), tree.root)?;
    let made = placed(alloc, piece)?;
    Ok(Kernel::of(made))
}
