//! What is still to be done of a settling.

ghost use Rattle.std.specs.Prelude.{◌≡◌, [], ◌∷◌, ◌++◌, MatchOption, OnOk, map};
ghost use Rattle.ev_settle.specs.Tasks.{enqueues, informs, sends, settles};

use ev_base::{Memory, PromId, Seq, Value, VatId};
use ev_refs::Message;
use std::alloc::Global;
use std::marker::Model;

/// A part of a settling. The depth is how many settlings, one inside another, may still be begun in it.
#[derive(Drop)]
pub enum Task {
    /// A message that was held is sent on.
    SendOn(Message, u64),
    /// A name settles.
    Settle(PromId, Value, u64),
    /// A reaction goes to the end of the queue.
    Enqueue(Message),
    /// A vat is told what a name settled to.
    Inform(PromId, VatId),
}

/// What is still to be done. Contracts see the next part first.
#[derive(Drop)]
pub struct Tasks {
    tasks: Vec<Task>,
}

impl Model for Tasks {
    ghost use Rattle.std.specs.Prelude.{List, reverse};
    ghost use Rattle.ev_settle.specs.declared.tasks.Task.{Task};

    ghost Value = { List Task };

    ghost view = { λ t. reverse t.tasks.items };
}

impl Tasks {
    /// Nothing to do.
    pub fn new(alloc: Global) -> Tasks
        ensures { result ≡ [] }
    {
        Tasks {
            tasks: Vec::new(alloc),
        }
    }

    /// A part is to be done before the others.
    pub fn push(&mut self, task: Task) -> Result<(), Memory>
        ensures { OnOk result (self.new ≡ task ∷ self.old) }
    {
        self.tasks.push(task)?;
        Ok(())
    }

    /// The next part.
    pub fn pop(&mut self) -> Option<Task>
        ensures { MatchOption result ((self.old ≡ []) × (self.new ≡ [])) (λ task. self.old ≡ task ∷ self.new) }
    {
        self.tasks.pop()
    }
}

/// These messages are to be sent on before all else.
pub(crate) fn push_sends(
    tasks: &mut Tasks,
    messages: Seq<Message>,
    depth: u64,
) -> Result<(), Memory>
    ensures { OnOk result (tasks.new ≡ sends depth messages ++ tasks.old) }
{
    let mut left = messages.into_vec();
    while let Some(message) = left.pop() {
        tasks.push(Task::SendOn(message, depth))?;
    }
    Ok(())
}

/// These names are to settle before all else.
pub(crate) fn push_settles(
    tasks: &mut Tasks,
    names: Seq<PromId>,
    value: &Value,
    depth: u64,
) -> Result<(), Memory>
    ensures { OnOk result (tasks.new ≡ settles depth value.now names ++ tasks.old) }
{
    let mut left = names.into_vec();
    while let Some(name) = left.pop() {
        tasks.push(Task::Settle(name, *value, depth))?;
    }
    Ok(())
}

/// These reactions are to be queued before all else.
pub(crate) fn push_enqueues(tasks: &mut Tasks, messages: Seq<Message>) -> Result<(), Memory>
    ensures { OnOk result (tasks.new ≡ enqueues messages ++ tasks.old) }
{
    let mut left = messages.into_vec();
    while let Some(message) = left.pop() {
        tasks.push(Task::Enqueue(message))?;
    }
    Ok(())
}

/// These vats are to be told before all else.
pub(crate) fn push_informs(tasks: &mut Tasks, name: PromId, vats: Seq<VatId>) -> Result<(), Memory>
    ensures { OnOk result (tasks.new ≡ informs name vats ++ tasks.old) }
{
    let mut left = vats.into_vec();
    while let Some(vat) = left.pop() {
        tasks.push(Task::Inform(name, vat))?;
    }
    Ok(())
}
