//! What fails of what is made, held, handed on and listed.

ghost use Rattle.std.specs.Prelude.{◌≡◌, Some, option_map};
ghost use Rattle.def_why.specs.Faults.{arrived, got, holds, is_carry, is_object_at, is_promise_at, new_list, new_name, new_object, new_promise, new_slot, read, wrote};
ghost use Rattle.ev_see_refusals.specs.Table.{last_in};

use crate::faults::{or_else, place_of, unless};
use crate::marks::Marks;
use crate::values::same;
use def_event::{Event, Shown};
use def_why::{About, Fault, Mark, Reason};
use ev_base::{Name, VatId};

/// Whether a name is made again, or not at home.
fn new_name(marks: &Marks, events: &[Event], at_home: bool, name: &Name) -> Option<Fault>
    ensures { result ≡ new_name (last_in marks.now events.now) at_home name.now }
{
    let again = marks.has(events, Mark::Made(*name));
    or_else(
        unless(at_home, Reason::NotOfItsVat, About::Name(*name)),
        unless(!again, Reason::MadeAgain, About::Name(*name)),
    )
}

#[tactic(auto, unfolding(def_why::specs::Faults::is_object_at))]
fn is_object_at(at: u64, name: &Name) -> bool
    ensures { result ≡ is_object_at at name.now }
{
    match name {
        Name::Object(vat, _) => place_of(*vat) == at,
        _ => false,
    }
}

#[tactic(auto, unfolding(def_why::specs::Faults::is_promise_at))]
fn is_promise_at(at: u64, name: &Name) -> bool
    ensures { result ≡ is_promise_at at name.now }
{
    match name {
        Name::Own(vat, _) => place_of(*vat) == at,
        _ => false,
    }
}

/// Whether an object, ejector, resolver or audition is made again, or by another vat.
#[tactic(auto, unfolding(def_why::specs::Faults::new_object))]
pub fn new_object(marks: &Marks, events: &[Event], at: u64, object: &Shown) -> Option<Fault>
    ensures { result ≡ new_object (last_in marks.now events.now) at object.now }
{
    match object {
        Shown::Name(name) => new_name(marks, events, is_object_at(at, name), name),
        _ => None,
    }
}

/// The same of a promise and its resolver.
pub fn new_promise(
    marks: &Marks,
    events: &[Event],
    at: u64,
    promise: &Name,
    resolver: &Shown,
) -> Option<Fault>
    ensures { result ≡ new_promise (last_in marks.now events.now) at promise.now resolver.now }
{
    or_else(
        new_name(marks, events, is_promise_at(at, promise), promise),
        new_object(marks, events, at, resolver),
    )
}

/// The same of a list.
pub fn new_list(marks: &Marks, events: &[Event], at: u64, vat: VatId, number: u64) -> Option<Fault>
    ensures { result ≡ new_list (last_in marks.now events.now) at vat number }
{
    let again = marks.has(events, Mark::List(vat, number));
    or_else(
        unless(
            place_of(vat) == at,
            Reason::NotOfItsVat,
            About::List(vat, number),
        ),
        unless(!again, Reason::MadeAgain, About::List(vat, number)),
    )
}

/// The same of a var slot.
pub fn new_slot(marks: &Marks, events: &[Event], at: u64, vat: VatId, number: u64) -> Option<Fault>
    ensures { result ≡ new_slot (last_in marks.now events.now) at vat number }
{
    let again = marks.has(events, Mark::Slot(vat, number));
    or_else(
        unless(
            place_of(vat) == at,
            Reason::NotOfItsVat,
            About::Slot(vat, number),
        ),
        unless(!again, Reason::MadeAgain, About::Slot(vat, number)),
    )
}

/// Whether a var slot is written that was not made.
pub fn wrote(marks: &Marks, events: &[Event], vat: VatId, number: u64) -> Option<Fault>
    ensures { result ≡ wrote (last_in marks.now events.now) vat number }
{
    let made = marks.has(events, Mark::Slot(vat, number));
    unless(made, Reason::SlotNotMade, About::Slot(vat, number))
}

#[tactic(auto, unfolding(def_why::specs::Faults::holds))]
fn holds_by(event: &Event, value: &Shown) -> bool
    ensures { result ≡ holds (Some event.now) value.now }
{
    match event {
        Event::Slot(_, _, held) => same(held, value),
        Event::Wrote(_, _, held) => same(held, value),
        _ => false,
    }
}

#[tactic(auto, unfolding(def_why::specs::Faults::holds))]
fn holds(last: Option<&Event>, value: &Shown) -> bool
    ensures { result ≡ holds (option_map (λ e. e.now) last.entry) value.now }
{
    match last {
        Some(event) => holds_by(event, value),
        None => false,
    }
}

/// Whether a var slot is read that was not made, or otherwise than it was written last.
pub fn read(
    marks: &Marks,
    events: &[Event],
    vat: VatId,
    number: u64,
    value: &Shown,
) -> Option<Fault>
    ensures { result ≡ read (last_in marks.now events.now) vat number value.now }
{
    let held = holds(marks.last(events, Mark::Slot(vat, number)), value);
    or_else(
        wrote(marks, events, vat, number),
        unless(held, Reason::ReadOtherwise, About::Slot(vat, number)),
    )
}

#[tactic(auto, unfolding(def_why::specs::Faults::is_carry))]
fn carries(event: &Event) -> bool
    ensures { result ≡ is_carry (Some event.now) }
{
    match event {
        Event::Carry(_, _, _, _) => true,
        _ => false,
    }
}

#[tactic(auto, unfolding(def_why::specs::Faults::is_carry))]
fn is_carry(last: Option<&Event>) -> bool
    ensures { result ≡ is_carry (option_map (λ e. e.now) last.entry) }
{
    match last {
        Some(event) => carries(event),
        None => false,
    }
}

/// Whether a list arrives again, or at another vat, or in a step that carries no note.
pub fn arrived(marks: &Marks, events: &[Event], at: u64, vat: VatId, number: u64) -> Option<Fault>
    ensures { result ≡ arrived (last_in marks.now events.now) at vat number }
{
    let comes = is_carry(marks.last(events, Mark::Step));
    or_else(
        new_list(marks, events, at, vat, number),
        unless(comes, Reason::CameInNoNote, About::List(vat, number)),
    )
}

/// Whether an ejector gives what no call handed on.
#[tactic(auto, unfolding(def_why::specs::Faults::got))]
pub fn got(marks: &Marks, events: &[Event], at: u64, value: &Shown) -> Option<Fault>
    ensures { result ≡ got (last_in marks.now events.now) at value.now }
{
    match value {
        Shown::Name(name) => {
            let handed = marks.has(events, Mark::Handed(at, *name));
            unless(handed, Reason::NotHanded, About::Name(*name))
        }
        Shown::List(vat, number) => {
            let handed = marks.has(events, Mark::HandedList(at, *vat, *number));
            unless(handed, Reason::NotHanded, About::List(*vat, *number))
        }
        _ => None,
    }
}
