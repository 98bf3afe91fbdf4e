//! What is told of a run: its events, or their text.

ghost use Rattle.std.specs.Prelude.{◌≡◌, ◌++◌, ◌∷◌, ℕ, List, [], IfSome, OnOk, string_bytes};
ghost use Rattle.def_event.specs.Lines.{render};
ghost use Rattle.def_event.specs.declared.event.Event.{Event as Told};
ghost use Rattle.ev_step_lines.specs.Lines.{lines_of};
ghost use Rattle.ev_step_text.specs.Accounts.{IsAccount, More, Tells};

use crate::write::write_lines;
use def_event::Event;
use ev_base::{Memory, Seq, Str};
use ev_event::History;
use ev_event::line::push_event;
use ev_heap::Lines;
use ev_step_lines::{Teller, push_lines};
use std::alloc::Global;

/// How events are told: as they are, or as their lines, each with its line feed.
#[derive(Drop)]
pub enum Form {
    Events(History),
    Text(String),
}

/// What is told of a run, and the names that its vats have in a text.
#[derive(Drop)]
pub struct Account {
    pub names: Seq<Str>,
    pub form: Form,
}

/// Appends the lines of events to a text.
pub fn add_text(
    alloc: Global,
    names: &Seq<Str>,
    events: &History,
    text: &mut String,
) -> Result<(), Memory>
    ensures grown { OnOk result (string_bytes text.new ≡ string_bytes text.old ++ render names.now events.now) }
    ensures more { OnOk result ((es : List Told) → string_bytes text.old ≡ render names.now es → string_bytes text.new ≡ render names.now (es ++ events.now)) }
{
    let more = events.render(alloc, names)?;
    text.push_str(more.as_str())?;
    Ok(())
}

/// Appends the line of an event to a text.
fn add_line(alloc: Global, names: &Seq<Str>, event: &Event, text: &mut String) -> Result<(), Memory>
    ensures { OnOk result ((es : List Told) → string_bytes text.old ≡ render names.now es → string_bytes text.new ≡ render names.now (es ++ event.now ∷ [])) }
{
    push_event(alloc, text, names.as_slice(), event)?;
    text.push('\n')?;
    Ok(())
}

/// Appends the lines of a step to a text.
fn add_step(
    names: &Seq<Str>,
    teller: &Teller<'_>,
    events: &Lines,
    text: &mut String,
) -> Result<(), Memory>
    ensures { OnOk result ((es : List Told) → string_bytes text.old ≡ render names.now es → string_bytes text.new ≡ render names.now (es ++ lines_of teller.now events.now)) }
{
    write_lines(teller, names.as_slice(), events, text)?;
    Ok(())
}

/// Tells one event more.
fn push_to(alloc: Global, names: &Seq<Str>, event: Event, form: &mut Form) -> Result<(), Memory>
    ensures { OnOk result ((es : List Told) → Tells names.now form.old es → Tells names.now form.new (es ++ event ∷ [])) }
{
    match form {
        Form::Events(history) => history.push(event),
        Form::Text(text) => add_line(alloc, names, &event, text),
    }
}

/// Tells what happened in a step.
fn tell_to(
    names: &Seq<Str>,
    teller: &Teller<'_>,
    events: &Lines,
    form: &mut Form,
) -> Result<(), Memory>
    ensures { OnOk result ((es : List Told) → Tells names.now form.old es → Tells names.now form.new (es ++ lines_of teller.now events.now)) }
{
    match form {
        Form::Events(history) => push_lines(teller, events, history),
        Form::Text(text) => add_step(names, teller, events, text),
    }
}

/// Forgets what was told, and keeps its room.
fn clear_in(form: &mut Form)
    ensures { (names : List (List ℕ)) (es : List Told) → Tells names form.old es → Tells names form.new [] }
{
    match form {
        Form::Events(history) => history.clear(),
        Form::Text(text) => text.clear(),
    }
}

impl Account {
    /// An account of nothing yet, which is to hold events. It takes no memory.
    pub fn of_events(alloc: Global, names: Seq<Str>) -> Account
        ensures { IsAccount names result [] }
    {
        Account {
            names,
            form: Form::Events(History::new(alloc)),
        }
    }

    /// An account of nothing yet, which is to hold text. It takes no memory.
    pub fn of_text(alloc: Global, names: Seq<Str>) -> Account
        ensures { IsAccount names result [] }
    {
        Account {
            names,
            form: Form::Text(String::new(alloc)),
        }
    }

    /// Tells one event more. After a refusal, which is for want of memory alone, it is of no use any more.
    pub fn push(&mut self, alloc: Global, event: Event) -> Result<(), Memory>
        ensures { OnOk result (More self.old self.new (event ∷ [])) }
    {
        push_to(alloc, &self.names, event, &mut self.form)
    }

    /// Tells what happened in a step, in order. After a refusal, which is for want of memory alone, it is of no use any more.
    pub fn tell(&mut self, teller: &Teller<'_>, events: &Lines) -> Result<(), Memory>
        ensures { OnOk result (More self.old self.new (lines_of teller.now events.now)) }
    {
        tell_to(&self.names, teller, events, &mut self.form)
    }

    /// Forgets what was told, and keeps its room.
    pub fn clear(&mut self)
        ensures { (names : List (List ℕ)) (es : List Told) → IsAccount names self.old es → IsAccount names self.new [] }
    {
        clear_in(&mut self.form);
    }

    /// The events, where it holds events.
    pub fn into_events(self) -> Option<History>
        ensures { IfSome result (λ history. (names : List (List ℕ)) (es : List Told) → IsAccount names self es → history ≡ es) }
    {
        let Account {
            names: _names,
            form,
        } = self;
        match form {
            Form::Events(history) => Some(history),
            Form::Text(_text) => None,
        }
    }
}
