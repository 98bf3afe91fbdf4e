//! What is left at a vat at the end of a run.

ghost use Rattle.std.specs.Prelude.{◌≡◌, ◌++◌, OnOk, map, zero};
ghost use Rattle.ev_vat.specs.Closing.{held_line, held_lines, left_lines, queue_line, wait_line, wait_lines};

use crate::vat::Vat;
use def_event::{Event, Shown};
use ev_base::{Memory, PromId};
use ev_event::History;
use ev_refs::{Known, Message, Refs};
use ev_step_lines::Table;

/// Adds a line for each message of the queue, which takes them off it.
fn push_queue(table: &Table, refs: &mut Refs, history: &mut History) -> Result<(), Memory>
    ensures queue { OnOk result (history.new ≡ history.old ++ map (queue_line table.now) refs.old.queue) }
    ensures known { OnOk result (refs.new.known ≡ refs.old.known) }
{
    while let Some(message) = refs.dequeue() {
        history.push(Event::LeftQueue(table.vat(), table.message(message.id)))?;
    }
    Ok(())
}

/// Adds a line for each message that is held at a name.
fn push_held(
    table: &Table,
    name: PromId,
    held: &[Message],
    history: &mut History,
) -> Result<(), Memory>
    ensures { OnOk result (history.new ≡ history.old ++ map (held_line table.now name) held.now) }
{
    for message in held {
        history.push(Event::LeftHeld(table.vat(), table.name(name), table.message(message.id)))?;
    }
    Ok(())
}

/// Adds a line for each reaction on a name.
fn push_waits(
    table: &Table,
    name: PromId,
    reactions: &[Message],
    history: &mut History,
) -> Result<(), Memory>
    ensures { OnOk result (history.new ≡ history.old ++ map (wait_line table.now name) reactions.now) }
{
    for message in reactions {
        let waited = Shown::Name(table.name(name));
        history.push(Event::LeftWait(table.vat(), waited, table.message(message.id)))?;
    }
    Ok(())
}

/// Adds the lines of what is held at all names, in order.
fn push_all_held(table: &Table, known: &[Known], history: &mut History) -> Result<(), Memory>
    ensures { OnOk result (history.new ≡ history.old ++ held_lines table.now zero known.now) }
{
    for (number, name) in known.iter().enumerate() {
        push_held(table, PromId(number as u64), name.held.as_slice(), history)?;
    }
    Ok(())
}

/// Adds the lines of the reactions on all names, in order.
fn push_all_waits(table: &Table, known: &[Known], history: &mut History) -> Result<(), Memory>
    ensures { OnOk result (history.new ≡ history.old ++ wait_lines table.now zero known.now) }
{
    for (number, name) in known.iter().enumerate() {
        push_waits(
            table,
            PromId(number as u64),
            name.reactions.as_slice(),
            history,
        )?;
    }
    Ok(())
}

impl Vat {
    /// Adds the lines of what is left at the vat, by the table of its names: the messages of the queue, which are taken off it, those that
    /// are held at names, and the reactions that wait on names.
    pub fn tell_left(&mut self, table: &Table, history: &mut History) -> Result<(), Memory>
        ensures { OnOk result (history.new ≡ history.old ++ left_lines table.now self.old.host.inside.refs) }
    {
        let refs = &mut self.host.inside.refs;
        push_queue(table, refs, history)?;
        push_all_held(table, refs.known(), history)?;
        push_all_waits(table, refs.known(), history)
    }
}
