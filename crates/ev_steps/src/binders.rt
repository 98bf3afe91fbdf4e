//! The nouns that a pattern binds.

ghost use Rattle.std.specs.Prelude.{◌≡◌, ◌++◌, ◌∷◌, [], IfOk, MatchOption, OnOk, length, slice_get};
ghost use Rattle.def_machine.specs.Free.{bound_nouns};
ghost use Rattle.ev_steps.specs.Binders.{at_level, below, below_of, finds, leaves, own, perhaps};
ghost use Rattle.ev_steps.specs.declared.binders.Task.{Task as TaskOf};

use def_kernel::Node;
use ev_base::{Memory, NodeId, Seq, Word};
use ev_room::Program;
use ev_room::tree::node_at;
use std::alloc::Global;
use std::marker::Model;

/// A noun that a pattern binds, and whether to a var slot. Contracts see the machine's.
pub struct Bindable {
    pub noun: Word,
    pub is_var: bool,
}

impl Drop for Bindable {
    fn drop(self) {
        let Self {
            noun: _noun,
            is_var: _,
        } = self;
    }
}

impl Model for Bindable {
    ghost use Rattle.def_machine.specs.Free.{BoundNoun};

    ghost Value = { BoundNoun };

    ghost view = { λ b. record { noun = b.noun; is_var = b.is_var } };
}

/// A node to be looked at, at most so many levels deep.
#[derive(Clone, Copy)]
pub struct Task {
    pub node: NodeId,
    pub height: usize,
}

/// The nodes that are still to be looked at. Contracts see the next one first.
#[derive(Drop)]
struct Tasks {
    tasks: Vec<Task>,
}

impl Model for Tasks {
    ghost use Rattle.std.specs.Prelude.{List, reverse};
    ghost use Rattle.ev_steps.specs.declared.binders.Task.{Task};

    ghost Value = { List Task };

    ghost view = { λ t. reverse t.tasks.items };
}

impl Tasks {
    fn new(alloc: Global) -> Tasks
        ensures { result ≡ [] }
    {
        Tasks {
            tasks: Vec::new(alloc),
        }
    }

    /// One more, which is the next.
    fn push(&mut self, node: NodeId, height: usize) -> Result<(), Memory>
        ensures { OnOk result (self.new ≡ (record { node = node; height = height }) ∷ self.old) }
    {
        self.tasks.push(Task { node, height })?;
        Ok(())
    }

    /// The next.
    fn pop(&mut self) -> Option<Task>
        ensures { MatchOption result ((self.old ≡ []) × (self.new ≡ [])) (λ task. self.old ≡ task ∷ self.new) }
    {
        self.tasks.pop()
    }
}

/// Nodes are to be looked at before the others.
fn push_all(nodes: &[NodeId], height: usize, tasks: &mut Tasks) -> Result<(), Memory>
    ensures { OnOk result (tasks.new ≡ at_level height nodes.now ++ tasks.old) }
{
    let mut count = nodes.len();
    while count > 0 {
        count -= 1;
        tasks.push(nodes[count], height)?;
    }
    Ok(())
}

/// A node or none.
fn push_perhaps(node: Option<NodeId>, height: usize, tasks: &mut Tasks) -> Result<(), Memory>
    ensures { OnOk result (tasks.new ≡ at_level height (perhaps node) ++ tasks.old) }
{
    match node {
        None => Ok(()),
        Some(node) => tasks.push(node, height),
    }
}

/// Two nodes.
fn push_two(first: NodeId, second: NodeId, height: usize, tasks: &mut Tasks) -> Result<(), Memory>
    ensures { OnOk result (tasks.new ≡ at_level height (first ∷ second ∷ []) ++ tasks.old) }
{
    tasks.push(second, height)?;
    tasks.push(first, height)
}

/// The parts of a definition.
#[tactic(auto, using(crate::proofs::Bound::defined))]
fn push_definition(
    pattern: NodeId,
    exit: Option<NodeId>,
    value: NodeId,
    height: usize,
    tasks: &mut Tasks,
) -> Result<(), Memory>
    ensures { OnOk result (tasks.new ≡ at_level height (pattern ∷ perhaps exit ++ value ∷ []) ++ tasks.old) }
{
    tasks.push(value, height)?;
    push_perhaps(exit, height, tasks)?;
    tasks.push(pattern, height)
}

/// The nodes below a node that may bind nouns in its scope are to be looked at.
fn push_below(node: &Node, height: usize, tasks: &mut Tasks) -> Result<(), Memory>
    ensures { OnOk result (tasks.new ≡ at_level height (below node.now) ++ tasks.old) }
{
    match node {
        Node::Set(_, value) => tasks.push(*value, height),
        Node::Def {
            pattern,
            exit,
            value,
        } => push_definition(*pattern, *exit, *value, height, tasks),
        Node::Call { receiver, args, .. } => {
            push_all(args.as_slice(), height, tasks)?;
            tasks.push(*receiver, height)
        }
        Node::Sequence(parts) | Node::ListPattern(parts) => {
            push_all(parts.as_slice(), height, tasks)
        }
        Node::MatchBind(first, second) | Node::Via(first, second) => {
            push_two(*first, *second, height, tasks)
        }
        Node::Object {
            pattern,
            auditors,
            ..
        } => {
            push_all(auditors.as_slice(), height, tasks)?;
            tasks.push(*pattern, height)
        }
        Node::Final(_, guard) | Node::Var(_, guard) | Node::Any(guard) => {
            push_perhaps(*guard, height, tasks)
        }
        _ => Ok(()),
    }
}

/// The noun that a node binds itself.
fn push_own(node: &Node, found: &mut Seq<Bindable>) -> Result<(), Memory>
    ensures { OnOk result (found.new ≡ found.old ++ own node.now) }
{
    match node {
        Node::Final(noun, _) => {
            let noun = noun.share()?;
            found.push(Bindable {
                noun,
                is_var: false,
            })
        }
        Node::Var(noun, _) => {
            let noun = noun.share()?;
            found.push(Bindable { noun, is_var: true })
        }
        _ => Ok(()),
    }
}

/// A node is looked at, unless no level is left.
#[tactic(auto, using(crate::proofs::Bound::finds_none, crate::proofs::Bound::leaves_none, crate::proofs::Bound::finds_some, crate::proofs::Bound::leaves_some))]
fn look(
    tree: &[Node],
    id: NodeId,
    height: usize,
    tasks: &mut Tasks,
    found: &mut Seq<Bindable>,
) -> Result<(), Memory>
    ensures found { OnOk result (found.new ≡ found.old ++ finds tree.now height id) }
    ensures tasks { OnOk result (tasks.new ≡ leaves tree.now height id ++ tasks.old) }
{
    if height == 0 {
        return Ok(());
    }
    match node_at(tree, id) {
        None => Ok(()),
        Some(node) => {
            push_below(node, height - 1, tasks)?;
            push_own(node, found)
        }
    }
}

/// The nouns that a pattern binds in the scope in which it stands, in the order of the form.
#[tactic(auto, using(crate::proofs::Bound::starts))]
pub fn bound_nouns(
    alloc: Global,
    program: &Program,
    pattern: NodeId,
) -> Result<Seq<Bindable>, Memory>
    ensures { IfOk result (λ nouns. nouns ≡ bound_nouns program.now pattern) }
{
    let tree = program.nodes();
    let mut found = Seq::new(alloc);
    let mut tasks = Tasks::new(alloc);
    tasks.push(pattern, tree.len())?;
    while let Some(task) = tasks.pop() {
        look(tree, task.node, task.height, &mut tasks, &mut found)?;
    }
    Ok(found)
}
