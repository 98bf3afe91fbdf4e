//! The first line that carries what was not there before.

ghost use Rattle.std.specs.Prelude.{◌≡◌, ◌↔◌, [], List, IfOk, IsTrue, OnOk, unwrap_or};
ghost use Rattle.def_event.specs.Uses.{CarriesSent, CarriesThese, IsFirstFailing, Line, delivered};
ghost use Rattle.ev_uses.specs.Finding.{FindsBefore, found_at};
ghost use Rattle.ev_uses.specs.Lines.{AddsThings, holds};
ghost use Rattle.ev_uses.specs.Onward.{OnwardStand};
ghost use Rattle.ev_uses.specs.Sought.{ReachesSought};

use crate::lines::{add_delivered, add_held, delivered_message, held_message};
use crate::onward::tell_onward;
use crate::places::Places;
use crate::sought::{Sought, has_sought};
use def_event::{Event, ShownNote};
use ev_base::Memory;
use ev_links::{Label, Labels, Links, Scope, place_after};
use std::alloc::Global;

/// Adds what the line at a place has of its message, where there is one.
#[tactic(auto, using(crate::proofs::Adding::none_added), unfolding(crate::specs::Finding::things_at))]
fn add_held_at(
    alloc: Global,
    labels: &mut Labels,
    events: &[Event],
    place: Option<usize>,
) -> Result<(), Memory>
    ensures { OnOk result (AddsThings (unwrap_or (found_at holds events.now place) []) labels.old labels.new) }
{
    let Some(place) = place else {
        return Ok(());
    };
    match events.get(place) {
        Some(event) => add_held(alloc, labels, event),
        None => Ok(()),
    }
}

/// Adds to labels what is reached from them, the nearest first, until those of others that are no gifts are all there, or all is.
/// They are looked for at first, and each time that twice as many labels were gone on from, so that the nearest are soon found, and
/// the looking takes little time beside the going.
fn reach_sought(links: &Links, labels: &mut Labels, others: &[Label]) -> Result<bool, Memory>
    ensures { IfOk result (λ there. ReachesSought links.now labels.old labels.new others.now there) }
{
    let mut index = 0;
    while index < labels.len() {
        if (index + 1).is_power_of_two() && has_sought(labels, Sought::NoGifts, others) {
            return Ok(true);
        }
        let label = labels.at(index);
        links.go_on(&Scope::All, label, labels)?;
        index += 1;
    }
    Ok(has_sought(labels, Sought::NoGifts, others))
}

/// Whether each name that a note carries is a gift, or is reached from what the line before of its message has. No label is given yet.
fn is_carried_sent(
    alloc: Global,
    events: &[Event],
    before: &Places,
    links: &Links,
    note: &ShownNote,
    carried: &mut Labels,
    known: &mut Labels,
) -> Result<bool, Memory>
    ensures { (past : List Line) → carried.old ≡ [] → known.old ≡ [] → FindsBefore events.now before.now past → OnwardStand links.now past
        → IfOk result (λ sent. IsTrue sent ↔ CarriesThese past (delivered note.now)) }
{
    let Some(message) = delivered_message(note) else {
        return Ok(true);
    };
    add_delivered(alloc, carried, note)?;
    add_held_at(alloc, known, events, before.find(&message))?;
    reach_sought(links, known, carried.as_slice())
}

/// The same, with room for what is carried and for what is reached.
fn is_note_sent(
    alloc: Global,
    events: &[Event],
    before: &Places,
    links: &Links,
    note: &ShownNote,
) -> Result<bool, Memory>
    ensures { (past : List Line) → FindsBefore events.now before.now past → OnwardStand links.now past
        → IfOk result (λ sent. IsTrue sent ↔ CarriesThese past (delivered note.now)) }
{
    let mut carried = Labels::new(alloc);
    let mut known = Labels::new(alloc);
    is_carried_sent(alloc, events, before, links, note, &mut carried, &mut known)
}

/// Whether a line carries only gifts and what is reached from what the line before of its message has.
#[tactic(auto, unfolding(def_event::specs::Uses::CarriesSent))]
fn carries_sent(
    alloc: Global,
    events: &[Event],
    before: &Places,
    links: &Links,
    event: &Event,
) -> Result<bool, Memory>
    ensures { (past : List Line) → FindsBefore events.now before.now past → OnwardStand links.now past
        → IfOk result (λ sent. IsTrue sent ↔ CarriesSent past event.now) }
{
    match event {
        Event::Carry(_, _, _, note) => is_note_sent(alloc, events, before, links, note.get()),
        _ => Ok(true),
    }
}

/// The same as `first_unsent`, where nothing is known yet of the lines of messages and of what leads onward.
fn first_carried_unsent(
    alloc: Global,
    events: &[Event],
    before: &mut Places,
    links: &mut Links,
) -> Result<Option<u64>, Memory>
    ensures { FindsBefore events.now before.old [] → OnwardStand links.old [] → IfOk result (λ answer. IsFirstFailing (λ past l. CarriesSent past l.event) events.now answer) }
{
    let mut at = 0;
    for (index, event) in events.iter().enumerate() {
        at = place_after(at, event);
        if !carries_sent(alloc, events, before, links, event)? {
            return Ok(Some(index as u64 + 1));
        }
        before.put(held_message(event), index)?;
        tell_onward(links, alloc, at, event)?;
    }
    Ok(None)
}

/// The first line of a history, counted from 1, that carries a name with a message which is no gift, and to which nothing leads
/// that stands in the line before of the message.
pub fn first_unsent(alloc: Global, events: &[Event]) -> Result<Option<u64>, Memory>
    ensures { IfOk result (λ answer. IsFirstFailing (λ past l. CarriesSent past l.event) events.now answer) }
{
    let mut before = Places::new(alloc);
    let mut links = Links::new(alloc);
    first_carried_unsent(alloc, events, &mut before, &mut links)
}
