//! The matchers of an object expression.

ghost use Rattle.std.specs.Prelude.{◌≡◌, ◌++◌, ◌∷◌, [], IfOk, OnOk, drop, option_map, slice_get};
ghost use Rattle.def_machine.specs.Scopes.{matcher_in, matchers_of};
ghost use Rattle.ev_steps.specs.Steps.{message_pair};
ghost use Rattle.ev_room.specs.Acts.{Gives};

use def_kernel::Node;
use ev_base::{ActId, Memory, NodeId, Seq, Value, Word};
use ev_room::data::{make_list, text_value};
use ev_room::exit::Exit;
use ev_room::room::Room;
use ev_room::tree::node_at;
use std::alloc::Global;
use std::marker::Model;

/// A matcher: its pattern, and its body. Contracts see the machine's.
#[derive(Clone, Copy)]
pub struct Matcher {
    pub pattern: NodeId,
    pub body: NodeId,
}

impl Model for Matcher {
    ghost use Rattle.def_machine.specs.Scopes.{Case};

    ghost Value = { Case };

    ghost view = { λ m. record { pattern = m.pattern; body = m.body } };

    ghost inverse = { λ c. record { pattern = c.pattern; body = c.body } };
}

/// A node is one more matcher, or none.
#[tactic(auto, unfolding(def_machine::specs::Scopes::matcher_in))]
fn push_matcher(node: &Node, matchers: &mut Seq<Matcher>) -> Result<(), Memory>
    ensures { OnOk result (matchers.new ≡ matchers.old ++ matcher_in (Some node.now)) }
{
    match node {
        Node::Matcher { pattern, body } => matchers.push(Matcher {
            pattern: *pattern,
            body: *body,
        }),
        _ => Ok(()),
    }
}

/// The same of the node of a number.
#[tactic(auto, unfolding(def_machine::specs::Scopes::matcher_in))]
fn push_member(tree: &[Node], member: NodeId, matchers: &mut Seq<Matcher>) -> Result<(), Memory>
    ensures { OnOk result (matchers.new ≡ matchers.old ++ matcher_in (slice_get tree.now member)) }
{
    match node_at(tree, member) {
        None => Ok(()),
        Some(node) => push_matcher(node, matchers),
    }
}

/// The matchers among the members of an object expression, in order.
#[tactic(auto, unfolding(def_machine::specs::Scopes::matchers_of))]
pub fn matchers_of(alloc: Global, tree: &[Node], members: &[NodeId]) -> Result<Seq<Matcher>, Memory>
    ensures { IfOk result (λ matchers. matchers ≡ matchers_of tree.now members.now) }
{
    let mut matchers = Seq::new(alloc);
    for member in members {
        push_member(tree, *member, &mut matchers)?;
    }
    Ok(matchers)
}

/// The matcher of that place, if there are so many.
pub fn matcher_at(matchers: &[Matcher], place: usize) -> Option<Matcher>
    ensures { result ≡ slice_get matchers.now place }
{
    match matchers.get(place) {
        None => None,
        Some(matcher) => Some(*matcher),
    }
}

/// A list of a verb and the list of the arguments.
#[tactic(auto, using(ev_room::proofs::Exits::ends), unfolding(crate::specs::Steps::opened_steps))]
pub fn message_pair(act: ActId, verb: &Word, args: &[Value], room: &mut Room) -> Result<Value, Exit>
    ensures outcome { Gives result room.new (message_pair act verb.now args.now room.old) }
{
    let list = make_list(act, args, room)?;
    let text = text_value(verb.as_str(), room)?;
    make_list(act, &[text, list], room)
}
