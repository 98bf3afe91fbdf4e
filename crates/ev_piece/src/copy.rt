//! Copies of pieces.

ghost use Rattle.std.specs.Prelude.{◌≡◌, IfOk};
ghost use Rattle.def_kernel.specs.declared.node.Node.TheVariants.{Call, Final, ListPattern, Lit, Method, Noun, Object, Sequence, Set, Var};

use def_kernel::{Literal, Node};
use ev_base::{Memory, NodeId, Seq, Word};
use std::alloc::Global;

fn numbers(alloc: Global, ids: &Seq<NodeId>) -> Result<Seq<NodeId>, Memory>
    ensures { IfOk result (λ copy. copy ≡ ids.now) }
{
    Ok(Seq::of(Vec::from_slice(alloc, ids.as_slice())?))
}

fn literal(value: &Literal) -> Result<Literal, Memory>
    ensures { IfOk result (λ copy. copy ≡ value.now) }
{
    match value {
        Literal::Int(number) => Ok(Literal::Int(*number)),
        Literal::Char(c) => Ok(Literal::Char(*c)),
        Literal::Text(text) => Ok(Literal::Text(text.share()?)),
    }
}

fn lit(value: &Literal) -> Result<Node, Memory>
    ensures { IfOk result (λ copy. copy ≡ Lit value.now) }
{
    let value = literal(value)?;
    Ok(Node::Lit(value))
}

fn noun(name: &Word) -> Result<Node, Memory>
    ensures { IfOk result (λ copy. copy ≡ Noun name.now) }
{
    let name = name.share()?;
    Ok(Node::Noun(name))
}

fn set(name: &Word, value: NodeId) -> Result<Node, Memory>
    ensures { IfOk result (λ copy. copy ≡ Set name.now value) }
{
    let name = name.share()?;
    Ok(Node::Set(name, value))
}

fn call(alloc: Global, receiver: NodeId, verb: &Word, args: &Seq<NodeId>) -> Result<Node, Memory>
    ensures { IfOk result (λ copy. copy ≡ Call receiver verb.now args.now) }
{
    let verb = verb.share()?;
    let args = numbers(alloc, args)?;
    Ok(Node::Call {
        receiver,
        verb,
        args,
    })
}

fn object(
    alloc: Global,
    pattern: NodeId,
    auditors: &Seq<NodeId>,
    members: &Seq<NodeId>,
) -> Result<Node, Memory>
    ensures { IfOk result (λ copy. copy ≡ Object pattern auditors.now members.now) }
{
    let auditors = numbers(alloc, auditors)?;
    let members = numbers(alloc, members)?;
    Ok(Node::Object {
        pattern,
        auditors,
        members,
    })
}

fn method(alloc: Global, verb: &Word, patterns: &Seq<NodeId>, body: NodeId) -> Result<Node, Memory>
    ensures { IfOk result (λ copy. copy ≡ Method verb.now patterns.now body) }
{
    let verb = verb.share()?;
    let patterns = numbers(alloc, patterns)?;
    Ok(Node::Method {
        verb,
        patterns,
        body,
    })
}

fn sequence(alloc: Global, items: &Seq<NodeId>) -> Result<Node, Memory>
    ensures { IfOk result (λ copy. copy ≡ Sequence items.now) }
{
    let items = numbers(alloc, items)?;
    Ok(Node::Sequence(items))
}

fn final_pattern(name: &Word, guard: Option<NodeId>) -> Result<Node, Memory>
    ensures { IfOk result (λ copy. copy ≡ Final name.now guard) }
{
    let name = name.share()?;
    Ok(Node::Final(name, guard))
}

fn variable(name: &Word, guard: Option<NodeId>) -> Result<Node, Memory>
    ensures { IfOk result (λ copy. copy ≡ Var name.now guard) }
{
    let name = name.share()?;
    Ok(Node::Var(name, guard))
}

fn list(alloc: Global, patterns: &Seq<NodeId>) -> Result<Node, Memory>
    ensures { IfOk result (λ copy. copy ≡ ListPattern patterns.now) }
{
    let patterns = numbers(alloc, patterns)?;
    Ok(Node::ListPattern(patterns))
}

/// A copy of a node.
fn node(alloc: Global, node: &Node) -> Result<Node, Memory>
    ensures { IfOk result (λ copy. copy ≡ node.now) }
{
    match node {
        Node::Lit(value) => lit(value),
        Node::Noun(name) => noun(name),
        Node::Set(name, value) => set(name, *value),
        Node::Def {
            pattern,
            exit,
            value,
        } => Ok(Node::Def {
            pattern: *pattern,
            exit: *exit,
            value: *value,
        }),
        Node::Call {
            receiver,
            verb,
            args,
        } => call(alloc, *receiver, verb, args),
        Node::Sequence(items) => sequence(alloc, items),
        Node::If(test, yes, no) => Ok(Node::If(*test, *yes, *no)),
        Node::Escape {
            pattern,
            body,
            caught,
        } => Ok(Node::Escape {
            pattern: *pattern,
            body: *body,
            caught: *caught,
        }),
        Node::Try {
            body,
            pattern,
            handler,
        } => Ok(Node::Try {
            body: *body,
            pattern: *pattern,
            handler: *handler,
        }),
        Node::Finally(body, after) => Ok(Node::Finally(*body, *after)),
        Node::Hide(body) => Ok(Node::Hide(*body)),
        Node::MatchBind(value, pattern) => Ok(Node::MatchBind(*value, *pattern)),
        Node::Object {
            pattern,
            auditors,
            members,
        } => object(alloc, *pattern, auditors, members),
        Node::Method {
            verb,
            patterns,
            body,
        } => method(alloc, verb, patterns, *body),
        Node::Matcher { pattern, body } => Ok(Node::Matcher {
            pattern: *pattern,
            body: *body,
        }),
        Node::Final(name, guard) => final_pattern(name, *guard),
        Node::Var(name, guard) => variable(name, *guard),
        Node::Any(guard) => Ok(Node::Any(*guard)),
        Node::ListPattern(patterns) => list(alloc, patterns),
        Node::Via(value, pattern) => Ok(Node::Via(*value, *pattern)),
    }
}

/// A copy of a piece.
pub fn copied(alloc: Global, piece: &Seq<Node>) -> Result<Seq<Node>, Memory>
    ensures { IfOk result (λ copy. copy ≡ piece.now) }
{
    let mut copy = Seq::new(alloc);
    let nodes = piece.as_slice();
    for item in nodes {
        let made = node(alloc, item)?;
        copy.push(made)?;
    }
    Ok(copy)
}
