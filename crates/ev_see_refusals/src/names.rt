//! What fails of names that settle.

ghost use Rattle.std.specs.Prelude.{◌≡◌, Some, option_map};
ghost use Rattle.def_why.specs.Faults.{founded, host, is_broken, is_founded, leads_to, settled_as, settled_once, settles_to, tells, told, told_in};
ghost use Rattle.ev_see_refusals.specs.Table.{last_in};

use crate::faults::{or_else, place_of, unless};
use crate::marks::Marks;
use crate::values::{is_told_as, same};
use def_event::{Event, Shown, ShownNote};
use def_why::{About, Fault, Mark, Reason};
use ev_base::{Name, VatId};

/// Whether a name settles again at a place.
pub fn settled_once(marks: &Marks, events: &[Event], at: u64, name: &Name) -> Option<Fault>
    ensures { result ≡ settled_once (last_in marks.now events.now) at name.now }
{
    let again = marks.has(events, Mark::Settled(at, *name));
    unless(!again, Reason::SettledAgain, About::Name(*name))
}

/// The host of a name.
#[tactic(auto, unfolding(def_why::specs::Faults::host))]
fn host(name: &Name) -> VatId
    ensures { result ≡ host name.now }
{
    match name {
        Name::Object(vat, _) => *vat,
        Name::Own(vat, _) => *vat,
        Name::Answer(vat, _) => *vat,
        Name::Gift(vat, _) => *vat,
        Name::Root(vat) => *vat,
        Name::Claimed(vat, _, _) => *vat,
    }
}

#[tactic(auto, unfolding(def_why::specs::Faults::settles_to))]
fn settles_by(event: &Event, value: &Shown) -> bool
    ensures { result ≡ settles_to (Some event.now) value.now }
{
    match event {
        Event::Settle(_, given) => same(given, value),
        _ => false,
    }
}

/// Whether a line is one by which a name settles to a value.
#[tactic(auto, unfolding(def_why::specs::Faults::settles_to))]
fn settles_to(last: Option<&Event>, value: &Shown) -> bool
    ensures { result ≡ settles_to (option_map (λ e. e.now) last.entry) value.now }
{
    match last {
        Some(event) => settles_by(event, value),
        None => false,
    }
}

#[tactic(auto, unfolding(def_why::specs::Faults::told_in))]
fn told_in(note: &ShownNote, value: &Shown) -> bool
    ensures { result ≡ told_in note.now value.now }
{
    match note {
        ShownNote::Settled(_, given) => is_told_as(given, value),
        _ => false,
    }
}

#[tactic(auto, unfolding(def_why::specs::Faults::tells))]
fn tells_by(event: &Event, value: &Shown) -> bool
    ensures { result ≡ tells (Some event.now) value.now }
{
    match event {
        Event::Carry(_, _, _, note) => told_in(note.get(), value),
        _ => false,
    }
}

/// Whether a line carries a note that tells a value.
#[tactic(auto, unfolding(def_why::specs::Faults::tells))]
fn tells(last: Option<&Event>, value: &Shown) -> bool
    ensures { result ≡ tells (option_map (λ e. e.now) last.entry) value.now }
{
    match last {
        Some(event) => tells_by(event, value),
        None => false,
    }
}

#[tactic(auto, unfolding(def_why::specs::Faults::leads_to))]
fn leads_by(marks: &Marks, events: &[Event], at: u64, event: &Event, value: &Shown) -> bool
    ensures { result ≡ leads_to (last_in marks.now events.now) at (Some event.now) value.now }
{
    match event {
        Event::Wait(_, other) => settles_to(marks.last(events, Mark::Settled(at, *other)), value),
        Event::View(_, other) => settles_to(marks.last(events, Mark::Settled(at, *other)), value),
        _ => false,
    }
}

/// Whether a line has a name wait for one that settled to a value at the place.
#[tactic(auto, unfolding(def_why::specs::Faults::leads_to))]
fn leads_to(marks: &Marks, events: &[Event], at: u64, last: Option<&Event>, value: &Shown) -> bool
    ensures { result ≡ leads_to (last_in marks.now events.now) at (option_map (λ e. e.now) last.entry) value.now }
{
    match last {
        Some(event) => leads_by(marks, events, at, event, value),
        None => false,
    }
}

#[tactic(auto, unfolding(def_why::specs::Faults::is_broken))]
fn is_broken(value: &Shown) -> bool
    ensures { result ≡ is_broken value.now }
{
    match value {
        Shown::Broken(_) => true,
        _ => false,
    }
}

/// Whether what a name settles to at a place is its host's to say, or was told there.
fn is_founded(marks: &Marks, events: &[Event], at: u64, name: &Name, value: &Shown) -> bool
    ensures { result ≡ is_founded (last_in marks.now events.now) at name.now value.now }
{
    let home = place_of(host(name));
    home == at
        || is_broken(value)
        || tells(marks.last(events, Mark::Told(at, *name)), value)
        || settles_to(marks.last(events, Mark::Settled(home, *name)), value)
        || leads_to(
            marks,
            events,
            at,
            marks.last(events, Mark::Led(at, *name)),
            value,
        )
}

/// Whether a name settles to what nobody told.
pub fn founded(
    marks: &Marks,
    events: &[Event],
    at: u64,
    name: &Name,
    value: &Shown,
) -> Option<Fault>
    ensures { result ≡ founded (last_in marks.now events.now) at name.now value.now }
{
    let is_founded = is_founded(marks, events, at, name, value);
    unless(is_founded, Reason::SettledUntold, About::Name(*name))
}

#[tactic(auto, unfolding(def_why::specs::Faults::settled_as))]
fn settled_by(event: &Event, note: &Shown) -> bool
    ensures { result ≡ settled_as (Some event.now) note.now }
{
    match event {
        Event::Settle(_, given) => is_told_as(note, given),
        _ => false,
    }
}

/// Whether a line is one by which a name settled to what a note tells.
#[tactic(auto, unfolding(def_why::specs::Faults::settled_as))]
fn settled_as(last: Option<&Event>, note: &Shown) -> bool
    ensures { result ≡ settled_as (option_map (λ e. e.now) last.entry) note.now }
{
    match last {
        Some(event) => settled_by(event, note),
        None => false,
    }
}

/// Whether a vat tells of a name that is not its own, or did not settle there, or settled otherwise.
pub fn told(
    marks: &Marks,
    events: &[Event],
    vat: VatId,
    name: &Name,
    value: &Shown,
) -> Option<Fault>
    ensures { result ≡ told (last_in marks.now events.now) vat name.now value.now }
{
    let home = place_of(vat);
    let has_settled = marks.has(events, Mark::Settled(home, *name));
    let is_same = is_broken(value)
        || settled_as(marks.last(events, Mark::Settled(home, *name)), value);
    or_else(
        unless(
            host(name).0 == vat.0,
            Reason::NotItsHost,
            About::Name(*name),
        ),
        or_else(
            unless(has_settled, Reason::ToldUnsettled, About::Name(*name)),
            unless(is_same, Reason::ToldOtherwise, About::Name(*name)),
        ),
    )
}
