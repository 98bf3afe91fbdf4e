//! A kernel tree, and what the objects of its object expressions capture.

ghost use Rattle.std.specs.Prelude.{◌≡◌, IfOk, IfSome, Some, length, option_map, slice_get};
ghost use Rattle.ev_kernel_printer.specs.FreeNames.{free_names};
ghost use Rattle.ev_kernel_printer.specs.Captured.{AreRows, captured};

use crate::free_names;
use def_kernel::{Kernel, Node};
use ev_base::{Memory, NodeId, Seq, Str};
use std::alloc::Global;
use std::marker::Model;

/// A kernel tree as a vat runs it. An object captures the free names of its expression each time that it is made, so they
/// are found once, before the program runs. Contracts see the tree.
pub struct Program {
    tree: Kernel,
    /// What each node captures, by the numbers of nodes.
    rows: Vec<Option<Seq<Str>>>,
}

impl Drop for Program {
    fn drop(self) {
        let Self {
            tree: _tree,
            rows: _rows,
        } = self;
    }
}

impl Model for Program {
    ghost use Rattle.std.specs.Prelude.{List, length};
    ghost use Rattle.def_kernel.specs.declared.node.Node.{Node};
    ghost use Rattle.ev_kernel_printer.specs.Captured.{AreRows};

    ghost Value = { List Node };

    ghost view = { λ p. p.tree };

    ghost invariant = { λ p. AreRows p.tree (length p.tree) p.rows.items };
}

/// What the node at a place captures, if it is an object expression.
fn row_of(
    alloc: Global,
    tree: &Kernel,
    node: &Node,
    place: usize,
) -> Result<Option<Seq<Str>>, Memory>
    requires { slice_get tree.now place ≡ Some node.now }
    ensures { IfOk result (λ row. row ≡ captured tree.now place) }
{
    let Node::Object { .. } = node else {
        return Ok(None);
    };
    let names = free_names(alloc, tree, NodeId(place as u64))?;
    Ok(Some(names))
}

/// What each node of a tree captures.
fn rows_of(alloc: Global, tree: &Kernel) -> Result<Vec<Option<Seq<Str>>>, Memory>
    ensures { IfOk result (λ rows. AreRows tree.now (length tree.now) rows.items) }
{
    let mut rows = Vec::new(alloc);
    for (place, node) in tree.nodes().iter().enumerate() {
        rows.push(row_of(alloc, tree, node, place)?)?;
    }
    Ok(rows)
}

impl Program {
    /// The program of a tree. That takes time with the tree, and with how many object expressions a node stands in. It fails
    /// for want of memory alone.
    pub fn new(alloc: Global, tree: Kernel) -> Result<Program, Memory>
        ensures { IfOk result (λ program. program ≡ tree) }
    {
        let rows = rows_of(alloc, &tree)?;
        Ok(Program { tree, rows })
    }

    /// The tree.
    pub fn tree(&self) -> &Kernel
        ensures { result.now ≡ self.now }
    {
        &self.tree
    }

    /// The nodes, lent in order.
    pub fn nodes(&self) -> &[Node]
        ensures { result.now ≡ self.now }
    {
        self.tree.nodes()
    }

    /// What an object of the expression at a node captures: its free names in the order of first use. None where the node
    /// is no object expression.
    pub fn captured(&self, node: NodeId) -> Option<&[Str]>
        ensures row { option_map (λ names. names.now) result ≡ captured self.now node }
        ensures names { IfSome result (λ names. names.now ≡ free_names self.now node) }
    {
        let Ok(place) = usize::try_from(node.0) else {
            return None;
        };
        match self.rows.get(place) {
            Some(Some(names)) => Some(names.as_slice()),
            _ => None,
        }
    }
}
