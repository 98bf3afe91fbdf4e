//! What is done at a node.

ghost use Rattle.std.specs.Prelude.{◌≡◌, ◌∷◌, ◌++◌, true, OnOk, slice_get};
ghost use Rattle.ev_reader.specs.Scopes.{is_clean};
ghost use Rattle.ev_reader.specs.Tasks.{opens_scope, visits, perhaps_visit, visits_inside, visit_inside, catch_inside, tasks_of, begins, ends, ends_found, visit_begins, visit_left, at_once, left};

use crate::scan::{Scan, assign_noun, bind_noun, enter, is_clean, leave, use_noun};
use crate::task::{
    Task, Tasks, push_caught, push_inside, push_perhaps, push_two, push_two_inside, push_visit,
    push_visits,
};
use def_kernel::Node;
use ev_base::{Memory, NodeId};
use std::alloc::{AllocError, Global};

/// What a node does as it begins.
fn begin(scan: &mut Scan, id: NodeId, node: &Node)
    ensures { scan.new ≡ begins id node.now scan.old }
{
    match node {
        Node::Noun(name) => use_noun(scan, id, name.as_str()),
        Node::Set(name, _) => assign_noun(scan, id, name.as_str()),
        _ => {}
    }
}

/// A pattern of one name ends.
fn end(scan: &mut Scan, alloc: Global, id: NodeId, clean: bool, node: &Node) -> Result<(), Memory>
    ensures { OnOk result (scan.new ≡ ends id clean node.now scan.old) }
{
    match node {
        Node::Final(name, _) => bind_noun(scan, alloc, id, clean, name.as_str(), false),
        Node::Var(name, _) => bind_noun(scan, alloc, id, clean, name.as_str(), true),
        _ => Ok(()),
    }
}

/// The tasks of the pattern of a name of this number.
fn push_named(
    tasks: &mut Tasks,
    id: NodeId,
    clean: bool,
    guard: Option<NodeId>,
    height: usize,
) -> Result<(), AllocError>
    ensures { OnOk result (tasks.new ≡ perhaps_visit height guard ++ Task.Bind id clean ∷ tasks.old) }
{
    tasks.push(Task::Bind(id, clean))?;
    push_perhaps(tasks, guard, height)
}

/// The tasks of a definition.
fn push_definition(
    tasks: &mut Tasks,
    pattern: NodeId,
    exit: Option<NodeId>,
    value: NodeId,
    height: usize,
) -> Result<(), AllocError>
    ensures { OnOk result (tasks.new ≡ perhaps_visit height exit ++ Task.Visit value height ∷ Task.Visit pattern height ∷ tasks.old) }
{
    push_two(tasks, value, pattern, height)?;
    push_perhaps(tasks, exit, height)
}

/// The tasks of a call.
fn push_call(
    tasks: &mut Tasks,
    receiver: NodeId,
    args: &[NodeId],
    height: usize,
) -> Result<(), AllocError>
    ensures { OnOk result (tasks.new ≡ Task.Visit receiver height ∷ (visits height args.now ++ tasks.old)) }
{
    push_visits(tasks, args, height)?;
    push_visit(tasks, receiver, height)
}

/// The tasks of an object.
fn push_object(
    tasks: &mut Tasks,
    pattern: NodeId,
    auditors: &[NodeId],
    members: &[NodeId],
    height: usize,
) -> Result<(), AllocError>
    ensures { OnOk result (tasks.new ≡ visits height auditors.now ++ Task.Visit pattern height ∷ (visits height members.now ++ tasks.old)) }
{
    push_visits(tasks, members, height)?;
    push_visit(tasks, pattern, height)?;
    push_visits(tasks, auditors, height)
}

/// The tasks of a method, whose patterns and body are one scope.
fn push_method(
    tasks: &mut Tasks,
    patterns: &[NodeId],
    body: NodeId,
    height: usize,
) -> Result<(), AllocError>
    ensures { OnOk result (tasks.new ≡ Task.Enter ∷ (visits height patterns.now ++ Task.Visit body height ∷ Task.Leave ∷ tasks.old)) }
{
    tasks.push(Task::Leave)?;
    push_visit(tasks, body, height)?;
    push_visits(tasks, patterns, height)?;
    tasks.push(Task::Enter)
}

/// A node, and then another, each in a scope of its own.
fn push_one_then_one(
    tasks: &mut Tasks,
    first: NodeId,
    last: NodeId,
    height: usize,
) -> Result<(), AllocError>
    ensures { OnOk result (tasks.new ≡ visit_inside height first ++ (visit_inside height last ++ tasks.old)) }
{
    push_inside(tasks, last, height)?;
    push_inside(tasks, first, height)
}

/// Two nodes in a scope of their own, and then one in its own.
fn push_two_then_one(
    tasks: &mut Tasks,
    first: NodeId,
    second: NodeId,
    last: NodeId,
    height: usize,
) -> Result<(), AllocError>
    ensures { OnOk result (tasks.new ≡ visits_inside height first second ++ (visit_inside height last ++ tasks.old)) }
{
    push_inside(tasks, last, height)?;
    push_two_inside(tasks, first, second, height)
}

/// A node in a scope of its own, and then two in theirs.
fn push_one_then_two(
    tasks: &mut Tasks,
    first: NodeId,
    second: NodeId,
    last: NodeId,
    height: usize,
) -> Result<(), AllocError>
    ensures { OnOk result (tasks.new ≡ visit_inside height first ++ (visits_inside height second last ++ tasks.old)) }
{
    push_two_inside(tasks, second, last, height)?;
    push_inside(tasks, first, height)
}

/// The tasks of an escape.
fn push_escape(
    tasks: &mut Tasks,
    pattern: NodeId,
    body: NodeId,
    caught: Option<(NodeId, NodeId)>,
    height: usize,
) -> Result<(), AllocError>
    ensures { OnOk result (tasks.new ≡ visits_inside height pattern body ++ (catch_inside height caught ++ tasks.old)) }
{
    push_caught(tasks, caught, height)?;
    push_two_inside(tasks, pattern, body, height)
}

/// The tasks of a node that opens a scope.
fn push_scoped(
    tasks: &mut Tasks,
    id: NodeId,
    clean: bool,
    node: &Node,
    height: usize,
) -> Result<(), AllocError>
    requires { opens_scope node.now ≡ true }
    ensures { OnOk result (tasks.new ≡ tasks_of id height clean node.now ++ tasks.old) }
{
    match node {
        Node::Hide(body) => push_inside(tasks, *body, height),
        Node::Matcher { pattern, body } => push_two_inside(tasks, *pattern, *body, height),
        Node::Finally(body, after) => push_one_then_one(tasks, *body, *after, height),
        Node::If(test, yes, no) => push_two_then_one(tasks, *test, *yes, *no, height),
        Node::Try {
            body,
            pattern,
            handler,
        } => push_one_then_two(tasks, *body, *pattern, *handler, height),
        Node::Escape {
            pattern,
            body,
            caught,
        } => push_escape(tasks, *pattern, *body, *caught, height),
        Node::Method { patterns, body, .. } => {
            push_method(tasks, patterns.as_slice(), *body, height)
        }
        // No other node opens one.
        _ => Ok(()),
    }
}

/// The tasks of a node are to be done before the others.
fn push_tasks(
    tasks: &mut Tasks,
    id: NodeId,
    clean: bool,
    node: &Node,
    height: usize,
) -> Result<(), AllocError>
    ensures { OnOk result (tasks.new ≡ tasks_of id height clean node.now ++ tasks.old) }
{
    match node {
        Node::Lit(_) | Node::Noun(_) => Ok(()),
        Node::Set(_, part) => push_visit(tasks, *part, height),
        Node::MatchBind(first, second) | Node::Via(first, second) => {
            push_two(tasks, *first, *second, height)
        }
        Node::Sequence(ids) | Node::ListPattern(ids) => push_visits(tasks, ids.as_slice(), height),
        Node::Any(guard) => push_perhaps(tasks, *guard, height),
        Node::Final(_, guard) | Node::Var(_, guard) => push_named(tasks, id, clean, *guard, height),
        Node::Def {
            pattern,
            exit,
            value,
        } => push_definition(tasks, *pattern, *exit, *value, height),
        Node::Call { receiver, args, .. } => push_call(tasks, *receiver, args.as_slice(), height),
        Node::Object {
            pattern,
            auditors,
            members,
        } => push_object(
            tasks,
            *pattern,
            auditors.as_slice(),
            members.as_slice(),
            height,
        ),
        _ => push_scoped(tasks, id, clean, node, height),
    }
}

/// A node is visited, unless no level is left.
fn visit(
    nodes: &[Node],
    id: NodeId,
    height: usize,
    tasks: &mut Tasks,
    scan: &mut Scan,
) -> Result<(), AllocError>
    ensures scan { OnOk result (scan.new ≡ visit_begins nodes.now id height scan.old) }
    ensures tasks { OnOk result (tasks.new ≡ visit_left nodes.now id height (is_clean scan.old) ++ tasks.old) }
{
    if height == 0 {
        return Ok(());
    }
    match nodes.get(id.0 as usize) {
        None => Ok(()),
        Some(node) => {
            push_tasks(tasks, id, is_clean(scan), node, height - 1)?;
            begin(scan, id, node);
            Ok(())
        }
    }
}

/// The pattern of this number ends.
fn end_found(
    nodes: &[Node],
    alloc: Global,
    id: NodeId,
    clean: bool,
    scan: &mut Scan,
) -> Result<(), Memory>
    ensures { OnOk result (scan.new ≡ ends_found id clean (slice_get nodes.now id) scan.old) }
{
    match nodes.get(id.0 as usize) {
        None => Ok(()),
        Some(node) => end(scan, alloc, id, clean, node),
    }
}

/// Does what of a task can be done at once, and leaves its other tasks.
pub(crate) fn act(
    nodes: &[Node],
    alloc: Global,
    task: Task,
    tasks: &mut Tasks,
    scan: &mut Scan,
) -> Result<(), Memory>
    ensures scan { OnOk result (scan.new ≡ at_once nodes.now task scan.old) }
    ensures tasks { OnOk result (tasks.new ≡ left nodes.now task scan.old ++ tasks.old) }
{
    match task {
        Task::Visit(id, height) => {
            visit(nodes, id, height, tasks, scan)?;
            Ok(())
        }
        Task::Bind(id, clean) => end_found(nodes, alloc, id, clean, scan),
        Task::Enter => enter(scan, alloc),
        Task::Leave => {
            leave(scan);
            Ok(())
        }
    }
}
