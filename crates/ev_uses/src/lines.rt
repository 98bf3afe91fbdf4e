//! The messages that lines speak of, and the names and lists that lines have with them.

ghost use Rattle.std.specs.Prelude.{◌≡◌, ◌∷◌, ◌++◌, [], OnOk};
ghost use Rattle.def_event.specs.Uses.{AName, all_parts, delivered, parts};
ghost use Rattle.ev_uses.specs.Lines.{AddsThings, carries, given_by, holds, message_of, sends, things_with};

use crate::parts::{add_value, add_values};
use def_event::{Event, Sent, Shown, ShownNote};
use ev_base::{Memory, Msg, Name};
use ev_links::{Labels, name_label};
use std::alloc::Global;

/// The message that a note delivers, if it delivers one.
#[tactic(auto, unfolding(def_event::specs::Uses::delivered, crate::specs::Lines::given_by))]
pub fn delivered_message(note: &ShownNote) -> Option<Msg>
    ensures all { result ≡ message_of (delivered note.now) }
    ensures args { result ≡ message_of (given_by note.now) }
{
    match note {
        ShownNote::Deliver { message, .. } => Some(*message),
        ShownNote::DeliverOnly { message, .. } => Some(*message),
        _ => None,
    }
}

/// The message that a line carries.
#[tactic(auto, unfolding(crate::specs::Lines::carries))]
pub fn carried_message(event: &Event) -> Option<Msg>
    ensures { result ≡ message_of (carries event.now) }
{
    match event {
        Event::Carry(_, _, _, note) => delivered_message(note.get()),
        _ => None,
    }
}

/// The message that a line sends.
#[tactic(auto, unfolding(crate::specs::Lines::sends))]
pub fn sent_message(event: &Event) -> Option<Msg>
    ensures { result ≡ message_of (sends event.now) }
{
    match event {
        Event::Send(sent) => Some(sent.get().message),
        Event::SendOnly(sent) => Some(sent.get().message),
        Event::When(when) => Some(when.get().message),
        _ => None,
    }
}

/// The message that a line carries, or sends on a target.
#[tactic(auto, unfolding(crate::specs::Lines::holds))]
pub fn held_message(event: &Event) -> Option<Msg>
    ensures { result ≡ message_of (holds event.now) }
{
    match event {
        Event::Send(sent) => Some(sent.get().message),
        Event::SendOnly(sent) => Some(sent.get().message),
        Event::Carry(_, _, _, note) => delivered_message(note.get()),
        _ => None,
    }
}

/// Adds a name.
fn add_name(labels: &mut Labels, name: &Name) -> Result<(), Memory>
    ensures { OnOk result (AddsThings (AName name.now ∷ []) labels.old labels.new) }
{
    labels.add(name_label(name))
}

/// Adds what the arguments of a delivered message have.
#[tactic(auto, using(crate::proofs::Adding::none_added), unfolding(crate::specs::Lines::given_by))]
fn add_given(alloc: Global, labels: &mut Labels, note: &ShownNote) -> Result<(), Memory>
    ensures { OnOk result (AddsThings (things_with (given_by note.now)) labels.old labels.new) }
{
    match note {
        ShownNote::Deliver { args, .. } => add_values(alloc, labels, args.as_slice()),
        ShownNote::DeliverOnly { args, .. } => add_values(alloc, labels, args.as_slice()),
        _ => Ok(()),
    }
}

/// Adds a target, and what arguments have.
fn add_addressed(
    alloc: Global,
    labels: &mut Labels,
    target: &Name,
    values: &[Shown],
) -> Result<(), Memory>
    ensures { OnOk result (AddsThings (AName target.now ∷ all_parts values.now) labels.old labels.new) }
{
    add_name(labels, target)?;
    add_values(alloc, labels, values)
}

/// Adds what a delivered message has: its target, and what its arguments have.
#[tactic(auto, using(crate::proofs::Adding::none_added), unfolding(def_event::specs::Uses::delivered))]
pub fn add_delivered(alloc: Global, labels: &mut Labels, note: &ShownNote) -> Result<(), Memory>
    ensures { OnOk result (AddsThings (things_with (delivered note.now)) labels.old labels.new) }
{
    match note {
        ShownNote::Deliver { target, args, .. } => {
            add_addressed(alloc, labels, target, args.as_slice())
        }
        ShownNote::DeliverOnly { target, args, .. } => {
            add_addressed(alloc, labels, target, args.as_slice())
        }
        _ => Ok(()),
    }
}

/// Adds what a line carries with its message.
#[tactic(auto, using(crate::proofs::Adding::none_added), unfolding(crate::specs::Lines::carries))]
pub fn add_carried(alloc: Global, labels: &mut Labels, event: &Event) -> Result<(), Memory>
    ensures { OnOk result (AddsThings (things_with (carries event.now)) labels.old labels.new) }
{
    match event {
        Event::Carry(_, _, _, note) => add_given(alloc, labels, note.get()),
        _ => Ok(()),
    }
}

/// Adds what a line sends with its message: what its arguments have, or what a reaction waits for.
#[tactic(auto, using(crate::proofs::Adding::none_added), unfolding(crate::specs::Lines::sends))]
pub fn add_sent(alloc: Global, labels: &mut Labels, event: &Event) -> Result<(), Memory>
    ensures { OnOk result (AddsThings (things_with (sends event.now)) labels.old labels.new) }
{
    match event {
        Event::Send(sent) => add_values(alloc, labels, sent.get().args.as_slice()),
        Event::SendOnly(sent) => add_values(alloc, labels, sent.get().args.as_slice()),
        Event::When(when) => add_value(alloc, labels, &when.get().value),
        _ => Ok(()),
    }
}

/// Adds what is sent on a target with arguments.
fn add_on(
    alloc: Global,
    labels: &mut Labels,
    target: &Shown,
    values: &[Shown],
) -> Result<(), Memory>
    ensures { OnOk result (AddsThings (parts target.now ++ all_parts values.now) labels.old labels.new) }
{
    add_value(alloc, labels, target)?;
    add_values(alloc, labels, values)
}

/// Adds what a send has: its target, its arguments and its answer.
fn add_send(alloc: Global, labels: &mut Labels, sent: &Sent) -> Result<(), Memory>
    ensures { OnOk result (AddsThings (parts sent.now.target ++ all_parts sent.now.args ++ AName sent.now.answer ∷ []) labels.old labels.new) }
{
    add_on(alloc, labels, &sent.target, sent.args.as_slice())?;
    add_name(labels, &sent.answer)
}

/// Adds all that a line has of its message, where it carries it, or sends it on a target.
#[tactic(auto, using(crate::proofs::Adding::none_added), unfolding(crate::specs::Lines::holds))]
pub fn add_held(alloc: Global, labels: &mut Labels, event: &Event) -> Result<(), Memory>
    ensures { OnOk result (AddsThings (things_with (holds event.now)) labels.old labels.new) }
{
    match event {
        Event::Send(sent) => add_send(alloc, labels, sent.get()),
        Event::SendOnly(sent) => {
            let sent = sent.get();
            add_on(alloc, labels, &sent.target, sent.args.as_slice())
        }
        Event::Carry(_, _, _, note) => add_delivered(alloc, labels, note.get()),
        _ => Ok(()),
    }
}
