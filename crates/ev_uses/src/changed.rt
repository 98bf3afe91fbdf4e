//! The first message that is taken with other arguments than it was sent with.

ghost use Rattle.std.specs.Prelude.{◌≡◌, ◌↔◌, [], List, IfOk, IsTrue};
ghost use Rattle.def_event.specs.declared.event.Addressed.{Addressed as Taking};
ghost use Rattle.def_event.specs.declared.event.Event.{Event as Told};
ghost use Rattle.def_event.specs.declared.event.Event.TheVariants.{Take as TakeLine};
ghost use Rattle.def_event.specs.Uses.{IsFirstFailing, Line, TakesSent, all_parts, arguments_in};
ghost use Rattle.ev_uses.specs.Finding.{SourcesStand};
ghost use Rattle.ev_uses.specs.Lines.{AddsThings};
ghost use Rattle.ev_uses.specs.Onward.{OnwardStand};

use crate::onward::tell_onward;
use crate::parts::add_values;
use crate::sought::{Sought, are_same, has_sought};
use crate::sources::Sources;
use def_event::{Addressed, Event};
use ev_base::Memory;
use ev_links::{Labels, Links, Scope, place_after};
use std::alloc::Global;

/// Whether the same names stand in two lots of labels with what lists among them have. No list is taken apart where both are the same.
fn have_same_names(links: &Links, there: &mut Labels, sent: &mut Labels) -> Result<bool, Memory>
    ensures { (events : List Told) (past : List Line) (taken : Taking) → OnwardStand links.now past → AddsThings (all_parts taken.args) [] there.old → AddsThings (arguments_in events taken.message) [] sent.old
        → IfOk result (λ same. IsTrue same ↔ TakesSent events past (TakeLine taken)) }
{
    if are_same(there.as_slice(), sent.as_slice()) {
        return Ok(true);
    }
    links.reach(&Scope::Lists, there)?;
    links.reach(&Scope::Lists, sent)?;
    if !has_sought(sent, Sought::Names, there.as_slice()) {
        return Ok(false);
    }
    Ok(has_sought(there, Sought::Names, sent.as_slice()))
}

/// Whether the same names stand in the arguments of a message as in what it was sent with. No label is given yet.
fn is_taken_as(
    alloc: Global,
    events: &[Event],
    sources: &Sources,
    links: &Links,
    taken: &Addressed,
    there: &mut Labels,
    sent: &mut Labels,
) -> Result<bool, Memory>
    ensures { (past : List Line) → there.old ≡ [] → sent.old ≡ [] → SourcesStand events.now sources.now events.now → OnwardStand links.now past
        → IfOk result (λ same. IsTrue same ↔ TakesSent events.now past (TakeLine taken.now)) }
{
    add_values(alloc, there, taken.args.as_slice())?;
    sources.add_arguments(alloc, sent, events, &taken.message)?;
    have_same_names(links, there, sent)
}

/// Whether a message is taken with what it was sent with.
fn is_taken_sent(
    alloc: Global,
    events: &[Event],
    sources: &Sources,
    links: &Links,
    taken: &Addressed,
) -> Result<bool, Memory>
    ensures { (past : List Line) → SourcesStand events.now sources.now events.now → OnwardStand links.now past
        → IfOk result (λ sent. IsTrue sent ↔ TakesSent events.now past (TakeLine taken.now)) }
{
    let mut there = Labels::new(alloc);
    let mut sent = Labels::new(alloc);
    is_taken_as(alloc, events, sources, links, taken, &mut there, &mut sent)
}

/// Whether a message that a line takes is taken with what it was sent with.
#[tactic(auto, unfolding(def_event::specs::Uses::TakesSent))]
fn takes_sent(
    alloc: Global,
    events: &[Event],
    sources: &Sources,
    links: &Links,
    event: &Event,
) -> Result<bool, Memory>
    ensures { (past : List Line) → SourcesStand events.now sources.now events.now → OnwardStand links.now past
        → IfOk result (λ sent. IsTrue sent ↔ TakesSent events.now past event.now) }
{
    match event {
        Event::Take(taken) => is_taken_sent(alloc, events, sources, links, taken.get()),
        _ => Ok(true),
    }
}

/// The same as `first_changed`, by what each message was sent with, where nothing is known yet of what leads onward.
fn first_taken_otherwise(
    alloc: Global,
    events: &[Event],
    sources: &Sources,
    links: &mut Links,
) -> Result<Option<u64>, Memory>
    ensures { SourcesStand events.now sources.now events.now → OnwardStand links.old []
        → IfOk result (λ answer. IsFirstFailing (λ past l. TakesSent events.now past l.event) events.now answer) }
{
    let mut at = 0;
    for (index, event) in events.iter().enumerate() {
        at = place_after(at, event);
        if !takes_sent(alloc, events, sources, links, event)? {
            return Ok(Some(index as u64 + 1));
        }
        tell_onward(links, alloc, at, event)?;
    }
    Ok(None)
}

/// The same, where no place is known yet of what messages were sent with.
fn first_by_sources(
    alloc: Global,
    events: &[Event],
    sources: &mut Sources,
    links: &mut Links,
) -> Result<Option<u64>, Memory>
    ensures { sources.old.carried ≡ [] → sources.old.sent ≡ [] → OnwardStand links.old []
        → IfOk result (λ answer. IsFirstFailing (λ past l. TakesSent events.now past l.event) events.now answer) }
{
    sources.put_lines(events)?;
    first_taken_otherwise(alloc, events, sources, links)
}

/// The first line of a history, counted from 1, that takes a message in whose arguments not the same names stand as in those that
/// it was sent with: those of its last carry line in the whole history, else of the first line that sends it.
pub fn first_changed(alloc: Global, events: &[Event]) -> Result<Option<u64>, Memory>
    ensures { IfOk result (λ answer. IsFirstFailing (λ past l. TakesSent events.now past l.event) events.now answer) }
{
    let mut sources = Sources::new(alloc);
    let mut links = Links::new(alloc);
    first_by_sources(alloc, events, &mut sources, &mut links)
}
