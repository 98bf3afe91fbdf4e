//! Kernel trees.

ghost use Rattle.std.specs.Prelude.{◌≡◌};

use crate::node::Node;
use ev_base::Seq;
use std::marker::Model;

/// A kernel tree: its nodes, numbered as its form is read from left to right. Node 0 is the root.
pub struct Kernel {
    nodes: Seq<Node>,
}

impl Drop for Kernel {
    fn drop(self) {
        let Self { nodes: _nodes } = self;
    }
}

impl Model for Kernel {
    ghost use Rattle.std.specs.Prelude.{List};
    ghost use Rattle.def_kernel.specs.declared.node.Node.{Node};

    ghost Value = { List Node };

    ghost view = { λ k. k.nodes };
}

impl Kernel {
    /// The tree of these nodes.
    pub fn of(nodes: Seq<Node>) -> Kernel
        ensures { result ≡ nodes }
    {
        Kernel { nodes }
    }

    /// The nodes, lent in order.
    pub fn nodes(&self) -> &[Node]
        ensures { result.now ≡ self.now }
    {
        self.nodes.as_slice()
    }
}
