//! Pieces as trees: each part is named by its number in the tree.

ghost use Rattle.std.specs.Prelude.{◌≡◌, ◌+◌, map, option_map, IfOk};
ghost use Rattle.def_kernel.specs.declared.node.Node.TheVariants.{Any, Call, Def, Escape, Final, Finally, Hide, If, ListPattern, MatchBind, Matcher, Method, Object, Sequence, Set, Try, Var, Via};
ghost use Rattle.ev_piece.specs.Placed.{node_at, placed};

use def_kernel::Node;
use ev_base::{Memory, NodeId, Seq, Word};
use std::alloc::Global;

/// The number of a part of the node at this number.
fn number(at: u64, part: NodeId) -> Result<NodeId, Memory>
    ensures { IfOk result (λ id. id ≡ at + part) }
{
    Ok(NodeId(at.checked_add(part.0).ok_or(Memory)?))
}

/// The numbers of parts.
fn numbers(alloc: Global, at: u64, parts: Seq<NodeId>) -> Result<Seq<NodeId>, Memory>
    ensures { IfOk result (λ ids. ids ≡ map (λ i. at + i) parts) }
{
    let mut ids = Seq::new(alloc);
    let offsets = parts.as_slice();
    for part in offsets {
        let id = number(at, *part)?;
        ids.push(id)?;
    }
    Ok(ids)
}

/// The number of a part, where there is one.
fn number_if(at: u64, part: Option<NodeId>) -> Result<Option<NodeId>, Memory>
    ensures { IfOk result (λ id. id ≡ option_map (λ i. at + i) part) }
{
    match part {
        None => Ok(None),
        Some(part) => {
            let id = number(at, part)?;
            Ok(Some(id))
        }
    }
}

/// The numbers of two parts, where they are there.
fn pair_if(at: u64, parts: Option<(NodeId, NodeId)>) -> Result<Option<(NodeId, NodeId)>, Memory>
    ensures { IfOk result (λ ids. ids ≡ option_map (λ q. (at + q.0, at + q.1)) parts) }
{
    match parts {
        None => Ok(None),
        Some((first, second)) => {
            let first = number(at, first)?;
            let second = number(at, second)?;
            Ok(Some((first, second)))
        }
    }
}

/// An assignment at this number.
fn set_at(at: u64, name: Word, value: NodeId) -> Result<Node, Memory>
    ensures { IfOk result (λ made. made ≡ Set name (at + value)) }
{
    let value = number(at, value)?;
    Ok(Node::Set(name, value))
}

/// A definition at this number.
fn def_at(at: u64, pattern: NodeId, exit: Option<NodeId>, value: NodeId) -> Result<Node, Memory>
    ensures { IfOk result (λ made. made ≡ Def (at + pattern) (option_map (λ i. at + i) exit) (at + value)) }
{
    let pattern = number(at, pattern)?;
    let exit = number_if(at, exit)?;
    let value = number(at, value)?;
    Ok(Node::Def {
        pattern,
        exit,
        value,
    })
}

/// A call at this number.
fn call_at(
    alloc: Global,
    at: u64,
    receiver: NodeId,
    verb: Word,
    args: Seq<NodeId>,
) -> Result<Node, Memory>
    ensures { IfOk result (λ made. made ≡ Call (at + receiver) verb (map (λ i. at + i) args)) }
{
    let receiver = number(at, receiver)?;
    let args = numbers(alloc, at, args)?;
    Ok(Node::Call {
        receiver,
        verb,
        args,
    })
}

/// A sequence at this number.
fn sequence_at(alloc: Global, at: u64, items: Seq<NodeId>) -> Result<Node, Memory>
    ensures { IfOk result (λ made. made ≡ Sequence (map (λ i. at + i) items)) }
{
    let items = numbers(alloc, at, items)?;
    Ok(Node::Sequence(items))
}

/// An if at this number.
fn if_at(at: u64, test: NodeId, yes: NodeId, no: NodeId) -> Result<Node, Memory>
    ensures { IfOk result (λ made. made ≡ If (at + test) (at + yes) (at + no)) }
{
    let test = number(at, test)?;
    let yes = number(at, yes)?;
    let no = number(at, no)?;
    Ok(Node::If(test, yes, no))
}

/// An escape at this number.
fn escape_at(
    at: u64,
    pattern: NodeId,
    body: NodeId,
    caught: Option<(NodeId, NodeId)>,
) -> Result<Node, Memory>
    ensures { IfOk result (λ made. made ≡ Escape (at + pattern) (at + body) (option_map (λ q. (at + q.0, at + q.1)) caught)) }
{
    let pattern = number(at, pattern)?;
    let body = number(at, body)?;
    let caught = pair_if(at, caught)?;
    Ok(Node::Escape {
        pattern,
        body,
        caught,
    })
}

/// A try at this number.
fn try_at(at: u64, body: NodeId, pattern: NodeId, handler: NodeId) -> Result<Node, Memory>
    ensures { IfOk result (λ made. made ≡ Try (at + body) (at + pattern) (at + handler)) }
{
    let body = number(at, body)?;
    let pattern = number(at, pattern)?;
    let handler = number(at, handler)?;
    Ok(Node::Try {
        body,
        pattern,
        handler,
    })
}

/// A finally at this number.
fn finally_at(at: u64, body: NodeId, after: NodeId) -> Result<Node, Memory>
    ensures { IfOk result (λ made. made ≡ Finally (at + body) (at + after)) }
{
    let body = number(at, body)?;
    let after = number(at, after)?;
    Ok(Node::Finally(body, after))
}

/// A hide at this number.
fn hide_at(at: u64, body: NodeId) -> Result<Node, Memory>
    ensures { IfOk result (λ made. made ≡ Hide (at + body)) }
{
    let body = number(at, body)?;
    Ok(Node::Hide(body))
}

/// A match at this number.
fn match_at(at: u64, value: NodeId, pattern: NodeId) -> Result<Node, Memory>
    ensures { IfOk result (λ made. made ≡ MatchBind (at + value) (at + pattern)) }
{
    let value = number(at, value)?;
    let pattern = number(at, pattern)?;
    Ok(Node::MatchBind(value, pattern))
}

/// An object at this number.
fn object_at(
    alloc: Global,
    at: u64,
    pattern: NodeId,
    auditors: Seq<NodeId>,
    members: Seq<NodeId>,
) -> Result<Node, Memory>
    ensures { IfOk result (λ made. made ≡ Object (at + pattern) (map (λ i. at + i) auditors) (map (λ i. at + i) members)) }
{
    let pattern = number(at, pattern)?;
    let auditors = numbers(alloc, at, auditors)?;
    let members = numbers(alloc, at, members)?;
    Ok(Node::Object {
        pattern,
        auditors,
        members,
    })
}

/// A method at this number.
fn method_at(
    alloc: Global,
    at: u64,
    verb: Word,
    patterns: Seq<NodeId>,
    body: NodeId,
) -> Result<Node, Memory>
    ensures { IfOk result (λ made. made ≡ Method verb (map (λ i. at + i) patterns) (at + body)) }
{
    let patterns = numbers(alloc, at, patterns)?;
    let body = number(at, body)?;
    Ok(Node::Method {
        verb,
        patterns,
        body,
    })
}

/// A matcher at this number.
fn matcher_at(at: u64, pattern: NodeId, body: NodeId) -> Result<Node, Memory>
    ensures { IfOk result (λ made. made ≡ Matcher (at + pattern) (at + body)) }
{
    let pattern = number(at, pattern)?;
    let body = number(at, body)?;
    Ok(Node::Matcher { pattern, body })
}

/// A final pattern at this number.
fn final_at(at: u64, name: Word, guard: Option<NodeId>) -> Result<Node, Memory>
    ensures { IfOk result (λ made. made ≡ Final name (option_map (λ i. at + i) guard)) }
{
    let guard = number_if(at, guard)?;
    Ok(Node::Final(name, guard))
}

/// A variable pattern at this number.
fn variable_at(at: u64, name: Word, guard: Option<NodeId>) -> Result<Node, Memory>
    ensures { IfOk result (λ made. made ≡ Var name (option_map (λ i. at + i) guard)) }
{
    let guard = number_if(at, guard)?;
    Ok(Node::Var(name, guard))
}

/// A pattern that binds nothing at this number.
fn any_at(at: u64, guard: Option<NodeId>) -> Result<Node, Memory>
    ensures { IfOk result (λ made. made ≡ Any (option_map (λ i. at + i) guard)) }
{
    let guard = number_if(at, guard)?;
    Ok(Node::Any(guard))
}

/// A list pattern at this number.
fn list_at(alloc: Global, at: u64, patterns: Seq<NodeId>) -> Result<Node, Memory>
    ensures { IfOk result (λ made. made ≡ ListPattern (map (λ i. at + i) patterns)) }
{
    let patterns = numbers(alloc, at, patterns)?;
    Ok(Node::ListPattern(patterns))
}

/// A via pattern at this number.
fn via_at(at: u64, value: NodeId, pattern: NodeId) -> Result<Node, Memory>
    ensures { IfOk result (λ made. made ≡ Via (at + value) (at + pattern)) }
{
    let value = number(at, value)?;
    let pattern = number(at, pattern)?;
    Ok(Node::Via(value, pattern))
}

/// The node at this number, its parts named by their numbers.
#[tactic(auto, unfolding(crate::specs::Placed::node_at))]
fn node_at(alloc: Global, at: u64, node: Node) -> Result<Node, Memory>
    ensures { IfOk result (λ made. made ≡ node_at at node) }
{
    match node {
        Node::Lit(value) => Ok(Node::Lit(value)),
        Node::Noun(name) => Ok(Node::Noun(name)),
        Node::Set(name, value) => set_at(at, name, value),
        Node::Def {
            pattern,
            exit,
            value,
        } => def_at(at, pattern, exit, value),
        Node::Call {
            receiver,
            verb,
            args,
        } => call_at(alloc, at, receiver, verb, args),
        Node::Sequence(items) => sequence_at(alloc, at, items),
        Node::If(test, yes, no) => if_at(at, test, yes, no),
        Node::Escape {
            pattern,
            body,
            caught,
        } => escape_at(at, pattern, body, caught),
        Node::Try {
            body,
            pattern,
            handler,
        } => try_at(at, body, pattern, handler),
        Node::Finally(body, after) => finally_at(at, body, after),
        Node::Hide(body) => hide_at(at, body),
        Node::MatchBind(value, pattern) => match_at(at, value, pattern),
        Node::Object {
            pattern,
            auditors,
            members,
        } => object_at(alloc, at, pattern, auditors, members),
        Node::Method {
            verb,
            patterns,
            body,
        } => method_at(alloc, at, verb, patterns, body),
        Node::Matcher { pattern, body } => matcher_at(at, pattern, body),
        Node::Final(name, guard) => final_at(at, name, guard),
        Node::Var(name, guard) => variable_at(at, name, guard),
        Node::Any(guard) => any_at(at, guard),
        Node::ListPattern(patterns) => list_at(alloc, at, patterns),
        Node::Via(value, pattern) => via_at(at, value, pattern),
    }
}

/// The nodes by number: the tree of a piece.
#[tactic(auto, using(crate::proofs::Behind::placed_behind), unfolding(crate::specs::Placed::placed))]
pub fn placed(alloc: Global, nodes: Seq<Node>) -> Result<Seq<Node>, Memory>
    ensures { IfOk result (λ made. made ≡ placed 0 nodes) }
{
    let mut made = Seq::new(alloc);
    let mut at = 0u64;
    for node in nodes.into_vec() {
        let numbered = node_at(alloc, at, node)?;
        made.push(numbered)?;
        at = at.checked_add(1).ok_or(Memory)?;
    }
    Ok(made)
}
