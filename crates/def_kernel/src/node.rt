//! The nodes of a kernel tree.

use ev_base::{NodeId, Seq, Text, Word};

/// A literal value. A text is held in UTF-8, and an integer within 128 bits with a sign.
pub enum Literal {
    Int(i128),
    Char(char),
    Text(Text),
}

impl Drop for Literal {
    fn drop(self) {
        match self {
            Self::Int(_) => {}
            Self::Char(_) => {}
            Self::Text(_text) => {}
        }
    }
}

/// A node, whose parts are named by their numbers in the tree.
#[derive(Drop)]
pub enum Node {
    Lit(Literal),
    Noun(Word),
    Set(Word, NodeId),
    Def {
        pattern: NodeId,
        exit: Option<NodeId>,
        value: NodeId,
    },
    Call {
        receiver: NodeId,
        verb: Word,
        args: Seq<NodeId>,
    },
    Sequence(Seq<NodeId>),
    If(NodeId, NodeId, NodeId),
    Escape {
        pattern: NodeId,
        body: NodeId,
        caught: Option<(NodeId, NodeId)>,
    },
    Try {
        body: NodeId,
        pattern: NodeId,
        handler: NodeId,
    },
    Finally(NodeId, NodeId),
    Hide(NodeId),
    MatchBind(NodeId, NodeId),
    Object {
        pattern: NodeId,
        auditors: Seq<NodeId>,
        members: Seq<NodeId>,
    },
    Method {
        verb: Word,
        patterns: Seq<NodeId>,
        body: NodeId,
    },
    Matcher {
        pattern: NodeId,
        body: NodeId,
    },
    Final(Word, Option<NodeId>),
    Var(Word, Option<NodeId>),
    Any(Option<NodeId>),
    ListPattern(Seq<NodeId>),
    Via(NodeId, NodeId),
}
