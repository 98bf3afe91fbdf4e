//! The first line that fails.

ghost use Rattle.std.specs.Prelude.{◌≡◌, [], IfOk};
ghost use Rattle.def_why.specs.Faults.{carried_note, fault_at, refusal, settled_fault, strict_fault, taken_fault};
ghost use Rattle.ev_see_refusals.specs.Table.{last_in};

use crate::marks::Marks;
use crate::messages::{answered, came, carried, sent, taken_once};
use crate::names::{founded, settled_once, told};
use crate::places::place_after;
use crate::things::{arrived, got, new_list, new_object, new_promise, new_slot, read, wrote};
use def_event::{Event, ShownNote};
use def_why::{Fault, Mark, Question, Refusal};
use ev_base::{Memory, VatId};
use std::alloc::Global;

/// What fails of a note that a vat sends.
#[tactic(auto, unfolding(def_why::specs::Faults::carried_note))]
fn carried_note(marks: &Marks, events: &[Event], vat: VatId, note: &ShownNote) -> Option<Fault>
    ensures { result ≡ carried_note (last_in marks.now events.now) vat note.now }
{
    match note {
        ShownNote::Deliver {
            message,
            target: _,
            verb,
            args,
        } => carried(marks, events, vat, message, verb.as_str(), args.as_slice()),
        ShownNote::DeliverOnly {
            message,
            target: _,
            verb,
            args,
        } => carried(marks, events, vat, message, verb.as_str(), args.as_slice()),
        ShownNote::Settled(name, value) => told(marks, events, vat, name, value),
        _ => None,
    }
}

/// What a line at a place brings in that nothing before it founds.
#[tactic(auto, unfolding(def_why::specs::Faults::strict_fault))]
fn strict_fault(marks: &Marks, events: &[Event], at: u64, event: &Event) -> Option<Fault>
    ensures { result ≡ strict_fault (last_in marks.now events.now) at event.now }
{
    match event {
        Event::Take(taken) => {
            let taken = taken.get();
            let last = marks.last(events, Mark::Moved(taken.message));
            came(
                &taken.message,
                taken.verb.as_str(),
                taken.args.as_slice(),
                last,
            )
        }
        Event::Carry(_, vat, _, note) => carried_note(marks, events, *vat, note.get()),
        Event::Send(sends) => {
            let sends = sends.get();
            answered(marks, events, at, &sends.message, &sends.answer)
        }
        Event::SendOnly(sends) => sent(marks, events, at, &sends.get().message),
        Event::When(when) => {
            let when = when.get();
            answered(marks, events, at, &when.message, &when.answer)
        }
        Event::Made(object) => new_object(marks, events, at, &object.get().object),
        Event::Ejector(_, object) => new_object(marks, events, at, object),
        Event::Audition(_, object) => new_object(marks, events, at, object),
        Event::Promise(_, promise, resolver) => new_promise(marks, events, at, promise, resolver),
        Event::List(_, list, _) => new_list(marks, events, at, list.0, list.1),
        Event::Arrived(list, _) => arrived(marks, events, at, list.0, list.1),
        Event::Slot(_, slot, _) => new_slot(marks, events, at, slot.0, slot.1),
        Event::Wrote(_, slot, _) => wrote(marks, events, slot.0, slot.1),
        Event::Read(_, slot, value) => read(marks, events, slot.0, slot.1, value),
        Event::Got(_, value) => got(marks, events, at, value),
        Event::Settle(name, value) => founded(marks, events, at, name, value),
        _ => None,
    }
}

#[tactic(auto, unfolding(def_why::specs::Faults::taken_fault))]
fn taken_fault(marks: &Marks, events: &[Event], at: u64, event: &Event) -> Option<Fault>
    ensures { result ≡ taken_fault (last_in marks.now events.now) at event.now }
{
    match event {
        Event::Take(taken) => taken_once(marks, events, at, &taken.get().message),
        _ => None,
    }
}

#[tactic(auto, unfolding(def_why::specs::Faults::settled_fault))]
fn settled_fault(marks: &Marks, events: &[Event], at: u64, event: &Event) -> Option<Fault>
    ensures { result ≡ settled_fault (last_in marks.now events.now) at event.now }
{
    match event {
        Event::Settle(name, _) => settled_once(marks, events, at, name),
        _ => None,
    }
}

/// What fails at a line.
fn fault_at(
    question: Question,
    marks: &Marks,
    events: &[Event],
    at: u64,
    event: &Event,
) -> Option<Fault>
    ensures { result ≡ fault_at question (last_in marks.now events.now) at event.now }
{
    match question {
        Question::Taken => taken_fault(marks, events, at, event),
        Question::Settled => settled_fault(marks, events, at, event),
        Question::Strict => strict_fault(marks, events, at, event),
    }
}

/// The same as `first_refusal`, where nothing is known yet of the lines.
fn first_by_marks(
    question: Question,
    marks: &mut Marks,
    events: &[Event],
) -> Result<Option<Refusal>, Memory>
    ensures { marks.old ≡ [] → IfOk result (λ found. found ≡ refusal question events.now) }
{
    let mut at = 0;
    for (index, event) in events.iter().enumerate() {
        at = place_after(at, event);
        let failed = fault_at(question, marks, events, at, event);
        if let Some(fault) = failed {
            return Ok(Some(Refusal {
                line: index as u64 + 1,
                fault,
            }));
        }
        marks.tell_line(at, event, index)?;
    }
    Ok(None)
}

/// The first line of a history of which what is asked does not hold, and how it fails, or none. Time grows with the history.
pub fn first_refusal(
    alloc: Global,
    question: Question,
    events: &[Event],
) -> Result<Option<Refusal>, Memory>
    ensures { IfOk result (λ found. found ≡ refusal question events.now) }
{
    let mut marks = Marks::new(alloc);
    first_by_marks(question, &mut marks, events)
}
