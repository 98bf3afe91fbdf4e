//! The settling of a name, part by part.

ghost use Rattle.std.specs.Prelude.{◌≡◌, ◌+◌, ◌++◌, ◌<◌, ◌∷◌, [], IfOk, OnOk, length, slice_get};
ghost use Rattle.ev_pass.specs.Acts.{Gives};
ghost use Rattle.ev_refs.specs.Leading.{lists_in};
ghost use Rattle.ev_settle.specs.Settling.{Leaves, forward, lost_answer, parts_of, pass_asking, pass_on, patience, perform, run, send_on, send_placed, settle, settle_at, settle_found, target_of};

use crate::changes::{come, enqueue, hold, wait_on};
use crate::tasks::{Task, Tasks, push_enqueues, push_informs, push_sends, push_settles};
use ev_base::{Memory, PromId, TextId, Value, VatId};
use ev_heap::Happened;
use ev_pass::{Interior, Reference, Stop};
use ev_refs::{Message, Place, Waiters};
use std::alloc::Global;

/// The message on another target.
fn on(message: Message, target: Value) -> Message
    ensures { result ≡ record message { target = target } }
{
    Message { target, ..message }
}

/// A message goes out that asks for an answer: the one that it has here waits on the new one.
#[tactic(auto, using(ev_pass::proofs::Ends::ends), unfolding(crate::specs::Settling::pass_asking, ev_pass::specs::Acts::opened_acts))]
fn pass_asking(
    inside: &mut Interior,
    message: Message,
    host: VatId,
    target: Reference,
    name: PromId,
) -> Result<(), Stop>
    ensures { Gives result inside.new (pass_asking message host target name inside.old) }
{
    let new = come(inside, host)?;
    let Message { id, verb, args, .. } = message;
    inside.deliver(id, Some(new), verb, args.as_slice(), host, target)?;
    wait_on(inside, name, new)
}

/// A message goes out to that vat, on what it is sent on there.
#[tactic(auto, unfolding(crate::specs::Settling::pass_on, crate::specs::Settling::pass_by_answer))]
fn pass_on(
    inside: &mut Interior,
    message: Message,
    host: VatId,
    target: Reference,
) -> Result<(), Stop>
    ensures { Gives result inside.new (pass_on message host target inside.old) }
{
    match message.answer {
        Some(name) => pass_asking(inside, message, host, target, name),
        None => {
            let Message { id, verb, args, .. } = message;
            inside.deliver(id, None, verb, args.as_slice(), host, target)
        }
    }
}

/// The answer of a message that is lost is to be broken.
fn push_lost(
    tasks: &mut Tasks,
    answer: Option<PromId>,
    problem: TextId,
    depth: u64,
) -> Result<(), Memory>
    ensures { OnOk result (tasks.new ≡ lost_answer answer problem depth tasks.old) }
{
    match answer {
        None => Ok(()),
        Some(answer) => tasks.push(Task::Settle(answer, Value::Broken(problem), depth)),
    }
}

/// Sends a message on that is here, on a followed target at this place.
#[tactic(auto, using(crate::proofs::Leaving::rests, ev_pass::proofs::Ends::ends), unfolding(crate::specs::Settling::send_placed, ev_pass::specs::Acts::opened_acts))]
fn send_placed(
    inside: &mut Interior,
    tasks: &mut Tasks,
    message: Message,
    depth: u64,
    target: &Value,
    place: Place,
) -> Result<(), Stop>
    ensures { Leaves result tasks.new inside.new (send_placed message depth target.now place tasks.old inside.old) }
{
    match place {
        Place::Near => enqueue(inside, on(message, *target)),
        Place::Mine(name) => hold(inside, name, on(message, *target)),
        Place::FarPromise(host, name) => {
            pass_on(inside, message, host, Reference::Promise(name))
        }
        Place::FarObject(host, position) => {
            pass_on(inside, message, host, Reference::Far(host, position))
        }
        Place::Gone(problem) => {
            push_lost(tasks, message.answer, problem, depth)?;
            inside.tell(Happened::LostBroken(message.id))
        }
    }
}

/// Sends a message on that is here.
#[tactic(auto, unfolding(crate::specs::Settling::send_on))]
fn send_on(
    inside: &mut Interior,
    tasks: &mut Tasks,
    message: Message,
    depth: u64,
) -> Result<(), Stop>
    ensures { Leaves result tasks.new inside.new (send_on message depth tasks.old inside.old) }
{
    let target = inside.refs.deref(message.target);
    let place = inside.refs.place(target);
    send_placed(inside, tasks, message, depth, &target, place)
}

/// What waited at a name that settles is to be done before all else.
fn push_waiters(
    tasks: &mut Tasks,
    name: PromId,
    value: &Value,
    depth: u64,
    waiters: Waiters,
) -> Result<(), Memory>
    ensures { OnOk result (tasks.new ≡ parts_of name value.now depth waiters ++ tasks.old) }
{
    let Waiters {
        held,
        waiting,
        reactions,
        told,
    } = waiters;
    push_informs(tasks, name, told)?;
    push_enqueues(tasks, reactions)?;
    push_settles(tasks, waiting, value, depth)?;
    push_sends(tasks, held, depth)
}

/// A name settles that is known.
fn settle_known(
    inside: &mut Interior,
    tasks: &mut Tasks,
    name: PromId,
    value: &Value,
    depth: u64,
) -> Result<(), Stop>
    requires { name < length inside.old.refs.known }
    ensures { Leaves result tasks.new inside.new (settle_found name value.now depth (slice_get inside.old.refs.known name) tasks.old inside.old) }
{
    match inside.refs.settle_name(name, *value) {
        None => Ok(()),
        Some(waiters) => {
            push_waiters(tasks, name, value, depth, waiters)?;
            inside.tell(Happened::Settle(name, *value))
        }
    }
}

/// What a name settles to: a list whose members lead back to it is broken `cycle`.
#[tactic(auto, unfolding(crate::specs::Settling::target_of, crate::specs::Settling::broken_if))]
fn target(inside: &Interior, name: PromId, value: &Value) -> Result<Value, Memory>
    ensures { IfOk result (λ v. v ≡ target_of inside.now.refs (lists_in inside.now.heap) name value.now) }
{
    match *value {
        Value::List(list) => {
            if inside.refs.list_leads_back(&inside.heap, name, list)? {
                return Ok(Value::Broken(inside.refs.cycle()));
            }
            Ok(*value)
        }
        _ => Ok(*value),
    }
}

/// A name settles, in at most so many settlings one inside another.
#[tactic(auto, unfolding(crate::specs::Settling::settle_at, crate::specs::Settling::settle_found, ev_pass::specs::Acts::opened_acts))]
fn settle_at(
    inside: &mut Interior,
    tasks: &mut Tasks,
    name: PromId,
    value: &Value,
    depth: u64,
) -> Result<(), Stop>
    ensures { Leaves result tasks.new inside.new (settle_at name value.now depth tasks.old inside.old) }
{
    if depth == 0 {
        return Err(Stop::Astray);
    }
    let target = target(inside, name, value)?;
    if name.0 < inside.refs.count() {
        return settle_known(inside, tasks, name, &target, depth - 1);
    }
    Ok(())
}

/// Does one part of a settling.
#[tactic(auto, using(crate::proofs::Leaving::rests), unfolding(crate::specs::Settling::perform, ev_pass::specs::Acts::opened_acts))]
fn perform(inside: &mut Interior, tasks: &mut Tasks, task: Task) -> Result<(), Stop>
    ensures { Leaves result tasks.new inside.new (perform task tasks.old inside.old) }
{
    match task {
        Task::SendOn(message, depth) => send_on(inside, tasks, message, depth),
        Task::Settle(name, value, depth) => settle_at(inside, tasks, name, &value, depth),
        Task::Enqueue(message) => enqueue(inside, message),
        Task::Inform(name, vat) => inside.inform(name, vat),
    }
}

/// How many settlings may still be begun one inside another: two more than names are known.
fn depth(inside: &Interior) -> Result<u64, Memory>
    ensures { IfOk result (λ d. d ≡ length inside.now.refs.known + 2) }
{
    match inside.refs.count().checked_add(2) {
        Some(depth) => Ok(depth),
        None => Err(Memory),
    }
}

/// One part, which is still to be done.
fn begun(alloc: Global, task: Task) -> Result<Tasks, Memory>
    ensures { IfOk result (λ ts. ts ≡ task ∷ []) }
{
    let mut tasks = Tasks::new(alloc);
    tasks.push(task)?;
    Ok(tasks)
}

/// All of these parts are done, and what they leave to be done.
fn finish(inside: &mut Interior, tasks: Tasks) -> Result<(), Stop>
    ensures { Gives result inside.new (run patience tasks inside.old) }
{
    let mut tasks = tasks;
    for _ in 0..u64::MAX {
        let Some(task) = tasks.pop() else {
            return Ok(());
        };
        match perform(inside, &mut tasks, task) {
            Ok(()) => {}
            Err(stop) => return Err(stop),
        }
    }
    Err(Stop::Memory)
}

/// A name settles to a value, or is broken `cycle` where that is a list whose members lead back to it: what waits at it, and at what
/// settles with it, goes on, in the machine's order; messages for other vats go out, and vats that are to be told are told. After a
/// stop what was done up to there stands.
#[tactic(auto, using(crate::proofs::Leaving::settles))]
pub fn settle(inside: &mut Interior, name: PromId, value: &Value) -> Result<(), Stop>
    ensures { Gives result inside.new (settle name value.now inside.old) }
{
    let depth = depth(inside)?;
    let tasks = begun(inside.alloc, Task::Settle(name, *value, depth))?;
    finish(inside, tasks)
}

/// A message that is here is sent on, with its answer, if it asks for one: it is queued, waits at a promise of this vat, goes out to
/// another vat, or is lost. After a stop what was done up to there stands.
#[tactic(auto, using(crate::proofs::Leaving::forwards))]
pub fn forward(inside: &mut Interior, message: Message) -> Result<(), Stop>
    ensures { Gives result inside.new (forward message inside.old) }
{
    let depth = depth(inside)?;
    let tasks = begun(inside.alloc, Task::SendOn(message, depth))?;
    finish(inside, tasks)
}
