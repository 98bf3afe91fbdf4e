//! The nodes of a tree, and the members of object expressions.

ghost use Rattle.std.specs.Prelude.{◌≡◌, Some, option_map, slice_get};
ghost use Rattle.def_machine.specs.Scopes.{members_of};
ghost use Rattle.ev_room.specs.Acts.{first_method, suits};

use def_kernel::Node;
use ev_base::{NodeId, Word};

/// The node of a number.
#[inline(always)]
pub fn node_at(tree: &[Node], id: NodeId) -> Option<&Node>
    ensures { option_map (λ node. node.now) result ≡ slice_get tree.now id }
{
    let Ok(index) = usize::try_from(id.0) else {
        return None;
    };
    tree.get(index)
}

/// The members of an object expression, and none of any other node.
#[tactic(auto, unfolding(def_machine::specs::Scopes::members_of))]
fn members_in(node: &Node) -> &[NodeId]
    ensures { result.now ≡ members_of (Some node.now) }
{
    match node {
        Node::Object { members, .. } => members.as_slice(),
        _ => &[],
    }
}

/// The members of the object expression at a node.
#[tactic(auto, unfolding(def_machine::specs::Scopes::members_of))]
pub fn members_of(tree: &[Node], id: NodeId) -> &[NodeId]
    ensures { result.now ≡ members_of (slice_get tree.now id) }
{
    match node_at(tree, id) {
        Some(node) => members_in(node),
        None => &[],
    }
}

/// Whether it is a method of that verb and that many patterns.
#[tactic(auto, unfolding(crate::specs::Acts::suits))]
fn suits(node: &Node, verb: &Word, count: usize) -> bool
    ensures { result ≡ suits verb.now count (Some node.now) }
{
    match node {
        Node::Method {
            verb: own,
            patterns,
            ..
        } => own.is(verb) && patterns.len() == count,
        _ => false,
    }
}

/// The first of the members that is a method of that verb and that many patterns.
#[tactic(auto, unfolding(crate::specs::Acts::first_method, crate::specs::Acts::suits))]
pub fn first_method<'a>(
    tree: &'a [Node],
    members: &[NodeId],
    verb: &Word,
    count: usize,
) -> Option<&'a Node>
    ensures { option_map (λ node. node.now) result ≡ first_method tree.now members.now verb.now count }
{
    for member in members {
        if let Some(node) = node_at(tree, *member)
            && suits(node, verb, count)
        {
            return Some(node);
        }
    }
    None
}
