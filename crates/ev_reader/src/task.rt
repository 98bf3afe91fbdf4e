//! What is still to be done.

ghost use Rattle.std.specs.Prelude.{◌≡◌, [], ◌∷◌, ◌++◌, MatchOption, OnOk};
ghost use Rattle.ev_reader.specs.Tasks.{visits, perhaps_visit, visits_inside, visit_inside, catch_inside};

use ev_base::NodeId;
use std::alloc::{AllocError, Global};
use std::marker::Model;

/// A task.
#[derive(Clone, Copy)]
pub enum Task {
    /// To visit a node, and its parts to so many levels.
    Visit(NodeId, usize),
    /// To bind the name of a pattern, which ends, and before which no fault was found or one.
    Bind(NodeId, bool),
    /// To begin a scope.
    Enter,
    /// To end the innermost scope.
    Leave,
}

/// The tasks that are still to be done. Contracts see the next one first.
#[derive(Drop)]
pub struct Tasks {
    tasks: Vec<Task>,
}

impl Model for Tasks {
    ghost use Rattle.std.specs.Prelude.{List, reverse};
    ghost use Rattle.ev_reader.specs.declared.task.Task.{Task};

    ghost Value = { List Task };

    ghost view = { λ t. reverse t.tasks.items };
}

impl Tasks {
    /// No task.
    pub fn new(alloc: Global) -> Tasks
        ensures { result ≡ [] }
    {
        Tasks {
            tasks: Vec::new(alloc),
        }
    }

    /// A task is to be done before the others.
    pub fn push(&mut self, task: Task) -> Result<(), AllocError>
        ensures { OnOk result (self.new ≡ task ∷ self.old) }
    {
        self.tasks.push(task)?;
        Ok(())
    }

    /// The next task.
    pub fn pop(&mut self) -> Option<Task>
        ensures { MatchOption result ((self.old ≡ []) × (self.new ≡ [])) (λ task. self.old ≡ task ∷ self.new) }
    {
        self.tasks.pop()
    }
}

/// A node is to be visited before the others.
pub(crate) fn push_visit(tasks: &mut Tasks, id: NodeId, height: usize) -> Result<(), AllocError>
    ensures { OnOk result (tasks.new ≡ Task.Visit id height ∷ tasks.old) }
{
    tasks.push(Task::Visit(id, height))
}

/// Two nodes.
pub(crate) fn push_two(
    tasks: &mut Tasks,
    first: NodeId,
    second: NodeId,
    height: usize,
) -> Result<(), AllocError>
    ensures { OnOk result (tasks.new ≡ Task.Visit first height ∷ Task.Visit second height ∷ tasks.old) }
{
    push_visit(tasks, second, height)?;
    push_visit(tasks, first, height)
}

/// A node or none.
pub(crate) fn push_perhaps(
    tasks: &mut Tasks,
    id: Option<NodeId>,
    height: usize,
) -> Result<(), AllocError>
    ensures { OnOk result (tasks.new ≡ perhaps_visit height id ++ tasks.old) }
{
    match id {
        None => Ok(()),
        Some(id) => push_visit(tasks, id, height),
    }
}

/// These nodes.
pub(crate) fn push_visits(
    tasks: &mut Tasks,
    ids: &[NodeId],
    height: usize,
) -> Result<(), AllocError>
    ensures { OnOk result (tasks.new ≡ visits height ids.now ++ tasks.old) }
{
    let mut count = ids.len();
    while count > 0 {
        count -= 1;
        push_visit(tasks, ids[count], height)?;
    }
    Ok(())
}

/// A node in a scope of its own.
pub(crate) fn push_inside(tasks: &mut Tasks, id: NodeId, height: usize) -> Result<(), AllocError>
    ensures { OnOk result (tasks.new ≡ visit_inside height id ++ tasks.old) }
{
    tasks.push(Task::Leave)?;
    push_visit(tasks, id, height)?;
    tasks.push(Task::Enter)
}

/// Two nodes in a scope of their own.
pub(crate) fn push_two_inside(
    tasks: &mut Tasks,
    first: NodeId,
    second: NodeId,
    height: usize,
) -> Result<(), AllocError>
    ensures { OnOk result (tasks.new ≡ visits_inside height first second ++ tasks.old) }
{
    tasks.push(Task::Leave)?;
    push_two(tasks, first, second, height)?;
    tasks.push(Task::Enter)
}

/// The catch of an escape, or none.
pub(crate) fn push_caught(
    tasks: &mut Tasks,
    caught: Option<(NodeId, NodeId)>,
    height: usize,
) -> Result<(), AllocError>
    ensures { OnOk result (tasks.new ≡ catch_inside height caught ++ tasks.old) }
{
    match caught {
        None => Ok(()),
        Some((pattern, body)) => push_two_inside(tasks, pattern, body, height),
    }
}
