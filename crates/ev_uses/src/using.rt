//! Whether the names that a line uses are known to its activation, or made by the line.

ghost use Rattle.std.specs.Prelude.{◌≡◌, ◌↔◌, ◌++◌, ◌∷◌, [], List, Some, IfOk, IsTrue};
ghost use Rattle.def_event.specs.Uses.{Line, UsesKnown, is_guarding, made_by, name_of, names, names_of, names_used, receivers, user};
ghost use Rattle.ev_known.specs.Knowing.{KnownStand};
ghost use Rattle.ev_uses.specs.Using.{DecidesAll, label_of};

use def_event::{Called, Event, Shown};
use ev_base::{Memory, Name};
use ev_known::{Activation, Knowledge};
use ev_links::{Label, name_label};
use std::alloc::Global;
use std::slice::from_ref;

/// Whether a label is that of what a line makes.
fn is_made(made: Option<Label>, label: Label) -> bool
    ensures { IsTrue result ↔ (made ≡ Some label) }
{
    match made {
        Some(made) => made == label,
        None => false,
    }
}

/// Whether a name is known or made.
fn is_name_known(
    knowledge: &mut Knowledge,
    alloc: Global,
    activation: Activation,
    made: Option<Label>,
    name: &Name,
) -> Result<bool, Memory>
    ensures { IfOk result (λ known. DecidesAll knowledge.old knowledge.new activation made (name.now ∷ []) known) }
{
    if is_made(made, name_label(name)) {
        return Ok(true);
    }
    knowledge.knows(alloc, activation, name)
}

/// Whether what a value names is known or made.
#[tactic(auto, using(crate::proofs::Known::decides_none), unfolding(def_event::specs::Uses::names_of))]
fn is_known(
    knowledge: &mut Knowledge,
    alloc: Global,
    activation: Activation,
    made: Option<Label>,
    value: &Shown,
) -> Result<bool, Memory>
    ensures { IfOk result (λ known. DecidesAll knowledge.old knowledge.new activation made (names_of value.now) known) }
{
    match value {
        Shown::Name(name) => is_name_known(knowledge, alloc, activation, made, name),
        _ => Ok(true),
    }
}

/// Whether what values name is known or made.
fn are_known(
    knowledge: &mut Knowledge,
    alloc: Global,
    activation: Activation,
    made: Option<Label>,
    values: &[Shown],
) -> Result<bool, Memory>
    ensures { IfOk result (λ known. DecidesAll knowledge.old knowledge.new activation made (names values.now) known) }
{
    for value in values {
        if !is_known(knowledge, alloc, activation, made, value)? {
            return Ok(false);
        }
    }
    Ok(true)
}

/// Whether what two lots of values name is known or made.
fn are_all_known(
    knowledge: &mut Knowledge,
    alloc: Global,
    activation: Activation,
    made: Option<Label>,
    first: &[Shown],
    others: &[Shown],
) -> Result<bool, Memory>
    ensures { IfOk result (λ known. DecidesAll knowledge.old knowledge.new activation made (names first.now ++ names others.now) known) }
{
    if !are_known(knowledge, alloc, activation, made, first)? {
        return Ok(false);
    }
    are_known(knowledge, alloc, activation, made, others)
}

/// Whether the receiver of a call does not count.
fn is_guarding(called: &Called) -> bool
    ensures { result ≡ is_guarding called.now }
{
    let verb = called.verb.as_str();
    let count = called.args.len();
    (verb == "coerce" && count == 2) || (verb == "audit" && count == 1)
}

/// The receiver of a call, where it counts.
fn receivers(called: &Called) -> &[Shown]
    ensures { names result.now ≡ receivers called.now }
{
    if is_guarding(called) {
        return &[];
    }
    from_ref(&called.target)
}

/// The name that a value is.
#[tactic(auto, unfolding(def_event::specs::Uses::name_of))]
fn value_label(value: &Shown) -> Option<Label>
    ensures { result ≡ label_of (name_of value.now) }
{
    match value {
        Shown::Name(name) => Some(name_label(name)),
        _ => None,
    }
}

/// What a line makes.
#[tactic(auto, unfolding(def_event::specs::Uses::made_by))]
fn made_label(event: &Event) -> Option<Label>
    ensures { result ≡ label_of (made_by event.now) }
{
    match event {
        Event::Made(made) => value_label(&made.get().object),
        Event::Send(sent) => Some(name_label(&sent.get().answer)),
        Event::When(when) => Some(name_label(&when.get().answer)),
        _ => None,
    }
}

/// The activation that uses something in a line, and 0 where the line uses nothing.
#[tactic(auto, unfolding(def_event::specs::Uses::user))]
fn user(event: &Event) -> u64
    ensures { result ≡ user event.now }
{
    match event {
        Event::Call(called) => called.get().activation,
        Event::List(number, _, _) => *number,
        Event::Made(made) => made.get().activation,
        Event::Send(sent) => sent.get().activation,
        Event::SendOnly(sent) => sent.get().activation,
        Event::When(when) => when.get().activation,
        Event::Wrote(number, _, _) => *number,
        Event::Done(number, _) => *number,
        _ => 0,
    }
}

/// The values that a line uses, in two lots.
#[tactic(auto, unfolding(def_event::specs::Uses::names_used))]
fn values_used(event: &Event) -> (&[Shown], &[Shown])
    ensures { names result.0.now ++ names result.1.now ≡ names_used event.now }
{
    match event {
        Event::Call(called) => {
            let called = called.get();
            (receivers(called), called.args.as_slice())
        }
        Event::List(_, _, members) => (&[], members.as_slice()),
        Event::Made(object) => {
            let object = object.get();
            (object.caps.as_slice(), object.stamps.as_slice())
        }
        Event::Send(sent) => {
            let sent = sent.get();
            (from_ref(&sent.target), sent.args.as_slice())
        }
        Event::SendOnly(sent) => {
            let sent = sent.get();
            (from_ref(&sent.target), sent.args.as_slice())
        }
        Event::When(when) => {
            let when = when.get();
            (from_ref(&when.value), from_ref(&when.reaction))
        }
        Event::Wrote(_, _, value) => (&[], from_ref(value)),
        Event::Done(_, value) => (&[], from_ref(value)),
        _ => (&[], &[]),
    }
}

/// Whether a line at a place uses only what its activation knows by the lines before it, or what the line makes.
pub fn uses_known(
    knowledge: &mut Knowledge,
    alloc: Global,
    at: u64,
    event: &Event,
) -> Result<bool, Memory>
    ensures { (past : List Line) → KnownStand knowledge.old past → IfOk result (λ known. (IsTrue known ↔ UsesKnown past (record { at = at; event = event.now })) × KnownStand knowledge.new past) }
{
    let number = user(event);
    let by = Activation { at, number };
    let (first, others) = values_used(event);
    are_all_known(knowledge, alloc, by, made_label(event), first, others)
}
