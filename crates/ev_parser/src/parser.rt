//! The parser.

ghost use Rattle.std.specs.Prelude.{◌≡◌, IfOk, map, take};
ghost use Rattle.ev_parser.specs.Parsed.{IsParsed};
ghost use Rattle.ev_parser.specs.Sweet.{node_of};

use crate::draft::Node;
use crate::forms::form_of;
use crate::read::{Reading, read};
use def_syntax::{Sugar, SugarNode, Token};
use ev_base::{Memory, NodeId, Seq};
use std::alloc::Global;

/// Why some tokens are not parsed.
#[derive(Clone, Copy, Debug)]
pub enum ParseFault {
    /// They spell no tree. The number is that of the first token behind which no continuation spells one, or the count
    /// of the tokens where each of them may stand there.
    NoSpelling(u64),
    /// They spell a tree that is higher than 60. The number is that of the first token such that each tree that a
    /// continuation of the tokens up to and with it spells is higher than 60.
    TooNested(u64),
    Memory,
}

/// The surface node of a node that has been read.
fn sugar_node(alloc: Global, text: &str, tokens: &[Token], node: &Node) -> Result<SugarNode, Memory>
    ensures { IfOk result (λ made. made ≡ node_of text.now tokens.now node.now) }
{
    let form = form_of(alloc, text, tokens, node)?;
    Ok(SugarNode {
        form,
        first: node.first.number,
    })
}

/// The surface nodes of nodes that have been read, in their order.
fn sugar_nodes(
    alloc: Global,
    text: &str,
    tokens: &[Token],
    nodes: &[Node],
) -> Result<Seq<SugarNode>, Memory>
    ensures { IfOk result (λ made. made ≡ map (λ n. node_of text.now tokens.now n) nodes.now) }
{
    let mut made = Seq::new(alloc);
    for node in nodes {
        let sugar = sugar_node(alloc, text, tokens, node)?;
        made.push(sugar)?;
    }
    Ok(made)
}

/// Parses the tokens of a text.
///
/// The tokens spell at most one tree. Where that is no higher than 60, it is the answer. A token whose place in the text
/// is none counts as the empty text.
///
/// # Errors
///
/// `NoSpelling` exactly where the tokens spell no tree, `TooNested` exactly where they spell one that is higher than 60,
/// and `Memory` where memory runs out.
pub fn parse(alloc: Global, tokens: &[Token], text: &str) -> Result<Sugar, ParseFault>
    ensures { IsParsed text.now tokens.now result }
{
    match read(alloc, tokens) {
        Err(_) => Err(ParseFault::Memory),
        Ok(Reading::NoSpelling(place)) => Err(ParseFault::NoSpelling(place)),
        Ok(Reading::TooNested(place)) => Err(ParseFault::TooNested(place)),
        Ok(Reading::Tree(nodes, root)) => match sugar_nodes(alloc, text, tokens, &nodes) {
            Err(_) => Err(ParseFault::Memory),
            Ok(made) => Ok(Sugar::of(made, NodeId(root as u64))),
        },
    }
}
