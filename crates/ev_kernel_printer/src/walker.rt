//! The free names of a node.

ghost use Rattle.std.specs.Prelude.{◌≡◌, ◌∷◌, ◌++◌, length, IfOk, OnOk, slice_get};
ghost use Rattle.ev_kernel_printer.specs.FreeNames.{counted, free_names};
ghost use Rattle.ev_kernel_printer.specs.Walks.{visits, perhaps_visit, two_inside, one_inside, catch_inside, tasks_of, members_left, members_tasks, begins, ends, ends_found, visit_begins, visit_left, at_once, left_over};

use crate::names::Names;
use crate::tasks::{
    Task, Tasks, push_caught, push_inside, push_perhaps, push_two, push_two_inside, push_visit,
    push_visits,
};
use def_kernel::{Kernel, Node};
use ev_base::{Memory, NodeId, Seq, Str};
use std::alloc::{AllocError, Global};

/// What a node does as it begins.
fn begin(names: &mut Names, alloc: Global, node: &Node) -> Result<(), Memory>
    ensures { OnOk result (names.new ≡ begins node.now names.old) }
{
    match node {
        Node::Noun(name) => names.add_use(alloc, name.as_str()),
        Node::Set(name, _) => names.add_use(alloc, name.as_str()),
        _ => Ok(()),
    }
}

/// A pattern of one name ends.
fn end(names: &mut Names, alloc: Global, node: &Node) -> Result<(), Memory>
    ensures { OnOk result (names.new ≡ ends node.now names.old) }
{
    match node {
        Node::Final(name, _) => names.bind(alloc, name.as_str()),
        Node::Var(name, _) => names.bind(alloc, name.as_str()),
        _ => Ok(()),
    }
}

/// The tasks of the pattern of a name of this number.
fn push_named(
    tasks: &mut Tasks,
    id: NodeId,
    guard: Option<NodeId>,
    height: usize,
) -> Result<(), AllocError>
    ensures { OnOk result (tasks.new ≡ perhaps_visit height guard ++ Task.Bind id ∷ tasks.old) }
{
    tasks.push(Task::Bind(id))?;
    push_perhaps(tasks, guard, height)
}

/// The tasks of a definition.
fn push_definition(
    tasks: &mut Tasks,
    pattern: NodeId,
    exit: Option<NodeId>,
    value: NodeId,
    height: usize,
) -> Result<(), AllocError>
    ensures { OnOk result (tasks.new ≡ perhaps_visit height exit ++ Task.Visit value height ∷ Task.Visit pattern height ∷ tasks.old) }
{
    push_two(tasks, value, pattern, height)?;
    push_perhaps(tasks, exit, height)
}

/// The tasks of a call.
fn push_call(
    tasks: &mut Tasks,
    receiver: NodeId,
    args: &[NodeId],
    height: usize,
) -> Result<(), AllocError>
    ensures { OnOk result (tasks.new ≡ Task.Visit receiver height ∷ (visits height args.now ++ tasks.old)) }
{
    push_visits(tasks, args, height)?;
    push_visit(tasks, receiver, height)
}

/// The tasks of the object of this number: its auditors and its pattern, and then its members.
fn push_object(
    tasks: &mut Tasks,
    id: NodeId,
    pattern: NodeId,
    auditors: &[NodeId],
    height: usize,
) -> Result<(), AllocError>
    ensures { OnOk result (tasks.new ≡ visits height auditors.now ++ Task.Visit pattern height ∷ Task.Members id height ∷ tasks.old) }
{
    tasks.push(Task::Members(id, height))?;
    push_visit(tasks, pattern, height)?;
    push_visits(tasks, auditors, height)
}

/// The tasks of a method.
fn push_method(
    tasks: &mut Tasks,
    patterns: &[NodeId],
    body: NodeId,
    height: usize,
    count: usize,
) -> Result<(), AllocError>
    ensures { OnOk result (tasks.new ≡ visits height patterns.now ++ (one_inside height count body ++ tasks.old)) }
{
    push_inside(tasks, body, height, count)?;
    push_visits(tasks, patterns, height)
}

/// A node, and then another, each in a scope of its own.
fn push_one_then_one(
    tasks: &mut Tasks,
    first: NodeId,
    last: NodeId,
    height: usize,
    count: usize,
) -> Result<(), AllocError>
    ensures { OnOk result (tasks.new ≡ one_inside height count first ++ (one_inside height count last ++ tasks.old)) }
{
    push_inside(tasks, last, height, count)?;
    push_inside(tasks, first, height, count)
}

/// Two nodes in a scope of their own, and then one in its own.
fn push_two_then_one(
    tasks: &mut Tasks,
    first: NodeId,
    second: NodeId,
    last: NodeId,
    height: usize,
    count: usize,
) -> Result<(), AllocError>
    ensures { OnOk result (tasks.new ≡ two_inside height count first second ++ (one_inside height count last ++ tasks.old)) }
{
    push_inside(tasks, last, height, count)?;
    push_two_inside(tasks, first, second, height, count)
}

/// A node in a scope of its own, and then two in theirs.
fn push_one_then_two(
    tasks: &mut Tasks,
    first: NodeId,
    second: NodeId,
    last: NodeId,
    height: usize,
    count: usize,
) -> Result<(), AllocError>
    ensures { OnOk result (tasks.new ≡ one_inside height count first ++ (two_inside height count second last ++ tasks.old)) }
{
    push_two_inside(tasks, second, last, height, count)?;
    push_inside(tasks, first, height, count)
}

/// The tasks of an escape.
fn push_escape(
    tasks: &mut Tasks,
    pattern: NodeId,
    body: NodeId,
    caught: Option<(NodeId, NodeId)>,
    height: usize,
    count: usize,
) -> Result<(), AllocError>
    ensures { OnOk result (tasks.new ≡ two_inside height count pattern body ++ (catch_inside height count caught ++ tasks.old)) }
{
    push_caught(tasks, caught, height, count)?;
    push_two_inside(tasks, pattern, body, height, count)
}

/// The tasks of a node, as which begins so many names are bound, are to be done before the others.
fn push_tasks(
    tasks: &mut Tasks,
    id: NodeId,
    count: usize,
    node: &Node,
    height: usize,
) -> Result<(), AllocError>
    ensures { OnOk result (tasks.new ≡ tasks_of id height count node.now ++ tasks.old) }
{
    match node {
        Node::Lit(_) | Node::Noun(_) => Ok(()),
        Node::Set(_, part) => push_visit(tasks, *part, height),
        Node::MatchBind(first, second) | Node::Via(first, second) => {
            push_two(tasks, *first, *second, height)
        }
        Node::Sequence(ids) | Node::ListPattern(ids) => push_visits(tasks, ids.as_slice(), height),
        Node::Any(guard) => push_perhaps(tasks, *guard, height),
        Node::Final(_, guard) | Node::Var(_, guard) => push_named(tasks, id, *guard, height),
        Node::Def {
            pattern,
            exit,
            value,
        } => push_definition(tasks, *pattern, *exit, *value, height),
        Node::Call { receiver, args, .. } => push_call(tasks, *receiver, args.as_slice(), height),
        Node::Object {
            pattern,
            auditors,
            ..
        } => push_object(tasks, id, *pattern, auditors.as_slice(), height),
        Node::Hide(body) => push_inside(tasks, *body, height, count),
        Node::Matcher { pattern, body } => push_two_inside(tasks, *pattern, *body, height, count),
        Node::Finally(body, after) => push_one_then_one(tasks, *body, *after, height, count),
        Node::If(test, yes, no) => push_two_then_one(tasks, *test, *yes, *no, height, count),
        Node::Try {
            body,
            pattern,
            handler,
        } => push_one_then_two(tasks, *body, *pattern, *handler, height, count),
        Node::Escape {
            pattern,
            body,
            caught,
        } => push_escape(tasks, *pattern, *body, *caught, height, count),
        Node::Method { patterns, body, .. } => {
            push_method(tasks, patterns.as_slice(), *body, height, count)
        }
    }
}

/// A node is visited, unless no level is left.
fn visit(
    nodes: &[Node],
    alloc: Global,
    id: NodeId,
    height: usize,
    tasks: &mut Tasks,
    names: &mut Names,
) -> Result<(), Memory>
    ensures names { OnOk result (names.new ≡ visit_begins nodes.now id height names.old) }
    ensures tasks { OnOk result (tasks.new ≡ visit_left nodes.now id height (length names.old.bound) ++ tasks.old) }
{
    if height == 0 {
        return Ok(());
    }
    match nodes.get(id.0 as usize) {
        None => Ok(()),
        Some(node) => {
            push_tasks(tasks, id, names.count(), node, height - 1)?;
            begin(names, alloc, node)
        }
    }
}

/// The pattern of this number ends.
fn end_found(nodes: &[Node], alloc: Global, id: NodeId, names: &mut Names) -> Result<(), Memory>
    ensures { OnOk result (names.new ≡ ends_found (slice_get nodes.now id) names.old) }
{
    match nodes.get(id.0 as usize) {
        None => Ok(()),
        Some(node) => end(names, alloc, node),
    }
}

/// The members of an object, behind which so many names are bound, are to be visited before the others.
fn push_members(
    node: &Node,
    height: usize,
    count: usize,
    tasks: &mut Tasks,
) -> Result<(), AllocError>
    ensures { OnOk result (tasks.new ≡ members_tasks height count node.now ++ tasks.old) }
{
    match node {
        Node::Object { members, .. } => {
            tasks.push(Task::Keep(count))?;
            push_visits(tasks, members.as_slice(), height)
        }
        _ => Ok(()),
    }
}

/// The same of the node of this number.
fn push_members_found(
    nodes: &[Node],
    id: NodeId,
    height: usize,
    count: usize,
    tasks: &mut Tasks,
) -> Result<(), AllocError>
    ensures { OnOk result (tasks.new ≡ members_left height count (slice_get nodes.now id) ++ tasks.old) }
{
    match nodes.get(id.0 as usize) {
        None => Ok(()),
        Some(node) => push_members(node, height, count, tasks),
    }
}

/// Does what of a task can be done at once, and leaves its other tasks.
fn act(
    nodes: &[Node],
    alloc: Global,
    task: Task,
    tasks: &mut Tasks,
    names: &mut Names,
) -> Result<(), Memory>
    ensures names { OnOk result (names.new ≡ at_once nodes.now task names.old) }
    ensures tasks { OnOk result (tasks.new ≡ left_over nodes.now task names.old ++ tasks.old) }
{
    match task {
        Task::Visit(id, height) => visit(nodes, alloc, id, height, tasks, names),
        Task::Bind(id) => end_found(nodes, alloc, id, names),
        Task::Members(id, height) => {
            push_members_found(nodes, id, height, names.count(), tasks)?;
            Ok(())
        }
        Task::Keep(count) => {
            names.keep(count);
            Ok(())
        }
    }
}

/// The nodes whose names count are to be visited.
fn push_counted(nodes: &[Node], id: NodeId, tasks: &mut Tasks) -> Result<(), AllocError>
    ensures { OnOk result (tasks.new ≡ visits (length nodes.now) (counted id (slice_get nodes.now id)) ++ tasks.old) }
{
    match nodes.get(id.0 as usize) {
        Some(Node::Object { members, .. }) => push_visits(tasks, members.as_slice(), nodes.len()),
        _ => push_visit(tasks, id, nodes.len()),
    }
}

/// The free names of a node in the order of first use; of an object, those of its methods and matchers.
#[tactic(auto, using(crate::proofs::WalkLemmas::ends_here))]
pub fn free_names(alloc: Global, tree: &Kernel, node: NodeId) -> Result<Seq<Str>, Memory>
    ensures { IfOk result (λ names. names ≡ free_names tree.now node) }
{
    let nodes = tree.nodes();
    let mut names = Names::new(alloc);
    let mut tasks = Tasks::new(alloc);
    push_counted(nodes, node, &mut tasks)?;
    while let Some(task) = tasks.pop() {
        act(nodes, alloc, task, &mut tasks, &mut names)?;
    }
    Ok(names.into_free())
}
