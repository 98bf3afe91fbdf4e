//! What lines say of what leads to what, as links of what leads.

ghost use Rattle.std.specs.Prelude.{◌≡◌, ◌∷◌, [], List, OnOk, map};
ghost use Rattle.def_event.specs.Uses.{Line, leads, things, things_of};
ghost use Rattle.ev_links.specs.Label.{label};
ghost use Rattle.ev_links.specs.declared.links.Way.TheVariants.{Listed as Listing};
ghost use Rattle.ev_uses.specs.Onward.{AddsOnward, LeadsTo, OnwardStand};

use def_event::{Event, Shown};
use ev_base::Memory;
use ev_links::{Label, Link, Links, Way, list_label, name_label};
use std::alloc::Global;

/// A thing leads to another.
fn lead_to(links: &mut Links, alloc: Global, from: Label, way: Way, to: Label) -> Result<(), Memory>
    ensures { OnOk result (LeadsTo from way (to ∷ []) links.old links.new) }
{
    links.add(alloc, from, Link { way, other: to })
}

/// A thing leads to what a value is.
#[tactic(auto, using(crate::proofs::Leading::none_led), unfolding(def_event::specs::Uses::things_of))]
fn lead_to_value(
    links: &mut Links,
    alloc: Global,
    from: Label,
    way: Way,
    value: &Shown,
) -> Result<(), Memory>
    ensures { OnOk result (LeadsTo from way (map label (things_of value.now)) links.old links.new) }
{
    match value {
        Shown::Name(name) => lead_to(links, alloc, from, way, name_label(name)),
        Shown::List(vat, number) => lead_to(links, alloc, from, way, list_label(vat, *number)),
        _ => Ok(()),
    }
}

/// A list leads to what its members are.
fn lead_to_members(
    links: &mut Links,
    alloc: Global,
    from: Label,
    members: &[Shown],
) -> Result<(), Memory>
    ensures { OnOk result (LeadsTo from Listing (map label (things members.now)) links.old links.new) }
{
    for member in members {
        lead_to_value(links, alloc, from, Way::Listed, member)?;
    }
    Ok(())
}

/// What an event says of what leads to what.
#[tactic(auto, using(crate::proofs::Leading::leads_onward, crate::proofs::Leading::no_leads), unfolding(def_event::specs::Uses::leads))]
fn tell_event(links: &mut Links, alloc: Global, at: u64, event: &Event) -> Result<(), Memory>
    ensures { OnOk result (AddsOnward (leads at event.now) links.old links.new) }
{
    match event {
        Event::Settle(name, value) => {
            lead_to_value(links, alloc, name_label(name), Way::Settled(at), value)
        }
        Event::View(name, view) => {
            let to = name_label(view);
            lead_to(links, alloc, name_label(name), Way::Settled(at), to)
        }
        Event::List(_, list, members) => {
            let from = list_label(&list.0, list.1);
            lead_to_members(links, alloc, from, members.as_slice())
        }
        Event::Arrived(list, members) => {
            let from = list_label(&list.0, list.1);
            lead_to_members(links, alloc, from, members.as_slice())
        }
        _ => Ok(()),
    }
}

/// Adds what a line at a place says of what leads to what. Links that stand for the lines before it stand for these and the line.
pub fn tell_onward(links: &mut Links, alloc: Global, at: u64, event: &Event) -> Result<(), Memory>
    ensures { (past : List Line) → OnwardStand links.old past → OnOk result (OnwardStand links.new (record { at = at; event = event.now } ∷ past)) }
{
    tell_event(links, alloc, at, event)
}
