//! The lines of what happened, from the small lines in which it is told.

ghost use Rattle.std.specs.Prelude.{◌≡◌, ◌++◌, ◌∷◌, [], IfOk, OnOk};
ghost use Rattle.def_event.specs.declared.event.Event.TheVariants as line_as;
ghost use Rattle.def_event.specs.declared.event.Event.TheVariants.{Call};
ghost use Rattle.ev_heap.specs.Told.{Fits, first, others, told};
ghost use Rattle.ev_step_lines.specs.Lines.{all_held, lines, lines_of, shown_held};

use crate::evaluated::{call_line, push_ejector, push_got, push_line};
use crate::shown::held_all;
use crate::single::{list_line, push_back, push_read, push_slot, push_thrown, push_wrote};
use crate::teller::Teller;
use def_event::Event;
use ev_base::{ActId, ListId, Memory, SlotId};
use ev_event::History;
use ev_heap::lines::Line;
use ev_heap::{Cursor, Entry, Held, Lines};

/// An activation, by its number in four bytes.
fn activation(number: u32) -> ActId
    ensures { result ≡ number }
{
    ActId(u64::from(number))
}

/// A slot, by its number in four bytes.
fn slot(number: u32) -> SlotId
    ensures { result ≡ number }
{
    SlotId(u64::from(number))
}

/// Adds the line of a call whose values are its target and its arguments.
fn push_call(
    teller: &Teller<'_>,
    activation: ActId,
    verb: &str,
    values: &Held<'_>,
    begun: Option<ActId>,
    history: &mut History,
) -> Result<(), Memory>
    ensures { OnOk result (history.new ≡ history.old ++ Call (record { activation = activation; target = shown_held teller.now (first values.now); verb = verb.now; args = all_held teller.now (others values.now); begun = begun }) ∷ []) }
{
    let others = values.others();
    let args = held_all(teller, &others)?;
    let line = call_line(teller, activation, values.first(), verb, args, begun)?;
    history.push(line)
}

/// Adds the line of a list, by the members that it was made with.
fn push_list(
    teller: &Teller<'_>,
    activation: ActId,
    list: ListId,
    values: &Held<'_>,
    history: &mut History,
) -> Result<(), Memory>
    ensures { OnOk result (history.new ≡ history.old ++ line_as.List activation (teller.now.naming.vat, list) (all_held teller.now values.now) ∷ []) }
{
    let members = held_all(teller, values)?;
    history.push(list_line(teller, activation, list, members))
}

/// Adds the line of what a small line tells with its values.
fn push_entry(
    teller: &Teller<'_>,
    read: &Cursor<'_>,
    line: Line,
    values: &Held<'_>,
    history: &mut History,
) -> Result<(), Memory>
    requires { Fits read.now.verbs read.now.rare line }
    ensures { OnOk result (history.new ≡ history.old ++ lines teller.now (told read.now.verbs read.now.rare line values.now)) }
{
    match line {
        Line::Call(_, act, verb) => push_call(
            teller,
            activation(act),
            read.verb(verb).as_str(),
            values,
            None,
            history,
        ),
        Line::Begins(_, act, verb, begun) => push_call(
            teller,
            activation(act),
            read.verb(verb).as_str(),
            values,
            Some(activation(begun)),
            history,
        ),
        Line::Back(act) => push_back(teller, activation(act), values.first(), history),
        Line::Thrown(act) => push_thrown(teller, activation(act), values.first(), history),
        Line::Gone(act) => history.push(Event::Gone(u64::from(act))),
        Line::Got(act) => push_got(teller, activation(act), values.first(), history),
        Line::Slot(act, id) => push_slot(
            teller,
            activation(act),
            slot(id),
            values.first(),
            history,
        ),
        Line::Read(act, id) => push_read(
            teller,
            activation(act),
            slot(id),
            values.first(),
            history,
        ),
        Line::Wrote(act, id) => push_wrote(
            teller,
            activation(act),
            slot(id),
            values.first(),
            history,
        ),
        Line::List(_, act, id) => push_list(
            teller,
            activation(act),
            ListId(u64::from(id)),
            values,
            history,
        ),
        Line::Ejector(act) => push_ejector(teller, activation(act), values.first(), history),
        Line::Rare(place) => push_line(teller, read.rare(place), history),
    }
}

/// Adds the lines of all that is left to read.
fn push_all(teller: &Teller<'_>, read: Cursor<'_>, history: &mut History) -> Result<(), Memory>
    ensures { OnOk result (history.new ≡ history.old ++ lines_of teller.now read.entry.left) }
{
    let mut read = read;
    while let Some(entry) = read.next() {
        push_entry(teller, &read, entry.line, &entry.values, history)?;
    }
    Ok(())
}

/// Adds the lines of all that happened, in order. A message that was put has a line where the link is cut, and what comes to be known has none.
pub fn push_lines(teller: &Teller<'_>, events: &Lines, history: &mut History) -> Result<(), Memory>
    ensures { OnOk result (history.new ≡ history.old ++ lines_of teller.now events.now) }
{
    push_all(teller, events.read_on(), history)
}
