//! Surface trees.

ghost use Rattle.std.specs.Prelude.{◌≡◌};

use crate::form::Form;
use ev_base::{NodeId, Seq};

/// A node and the number of its first token.
pub struct SugarNode {
    pub form: Form,
    pub first: u64,
}

impl Drop for SugarNode {
    fn drop(self) {
        let Self {
            form: _form,
            first: _,
        } = self;
    }
}

/// A surface tree: its nodes by number, each behind its parts, and the number of the root. There may be nodes that are
/// no part of the tree.
pub struct Sugar {
    pub nodes: Seq<SugarNode>,
    pub root: NodeId,
}

impl Drop for Sugar {
    fn drop(self) {
        let Self {
            nodes: _nodes,
            root: _,
        } = self;
    }
}

impl Sugar {
    /// The tree of these nodes.
    pub fn of(nodes: Seq<SugarNode>, root: NodeId) -> Sugar
        ensures nodes { result.nodes ≡ nodes }
        ensures root { result.root ≡ root }
    {
        Sugar { nodes, root }
    }

    /// The nodes, lent in order.
    pub fn nodes(&self) -> &[SugarNode]
        ensures { result.now ≡ self.now.nodes }
    {
        self.nodes.as_slice()
    }
}
