//! What a cut loses is told.

ghost use Rattle.std.specs.Prelude.{◌≡◌, ◌++◌, List, OnOk, string_bytes};
ghost use Rattle.def_event.specs.Lines.{render};
ghost use Rattle.def_event.specs.declared.event.Event.{Event as Told};
ghost use Rattle.ev_step_text.specs.Accounts.{More, Tells};
ghost use Rattle.ev_ways.specs.Telling.{lost_labels};

use ev_base::{Memory, Seq, Str};
use ev_event::History;
use ev_step_text::account::add_text;
use ev_step_text::{Account, Form};
use ev_ways::Label;
use ev_ways::telling::tell_lost;
use std::alloc::Global;
use std::collections::VecDeque;

/// Appends the lines of the messages that the frames of these labels bring, which are lost.
fn add_lost(
    alloc: Global,
    names: &Seq<Str>,
    labels: VecDeque<Label>,
    text: &mut String,
) -> Result<(), Memory>
    ensures { OnOk result ((es : List Told) → string_bytes text.old ≡ render names.now es → string_bytes text.new ≡ render names.now (es ++ lost_labels labels.items)) }
{
    let mut lost = History::new(alloc);
    tell_lost(&mut lost, labels)?;
    add_text(alloc, names, &lost, text)
}

/// The messages that the frames of these labels bring are lost, in order.
fn tell_lost_in(
    alloc: Global,
    names: &Seq<Str>,
    labels: VecDeque<Label>,
    form: &mut Form,
) -> Result<(), Memory>
    ensures { OnOk result ((es : List Told) → Tells names.now form.old es → Tells names.now form.new (es ++ lost_labels labels.items)) }
{
    match form {
        Form::Events(history) => tell_lost(history, labels),
        Form::Text(text) => add_lost(alloc, names, labels, text),
    }
}

/// The messages that the frames of these labels bring are lost, in order.
pub(crate) fn tell_lost_to(
    alloc: Global,
    labels: VecDeque<Label>,
    account: &mut Account,
) -> Result<(), Memory>
    ensures { OnOk result (More account.old account.new (lost_labels labels.items)) }
{
    tell_lost_in(alloc, &account.names, labels, &mut account.form)
}
