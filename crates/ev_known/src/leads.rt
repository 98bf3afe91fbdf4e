//! What lines say of what leads to what, as links of what is led to.

ghost use Rattle.std.specs.Prelude.{◌≡◌, ◌∷◌, [], List, OnOk, map};
ghost use Rattle.def_event.specs.Uses.{AName, Line, leads, things, things_of};
ghost use Rattle.ev_links.specs.Label.{label};
ghost use Rattle.ev_links.specs.declared.links.Way.TheVariants.{Listed as Listing, Settled as Settling};
ghost use Rattle.ev_known.specs.Leads.{AddsEach, AddsLeads, LinksStand};

use def_event::{Event, Shown};
use ev_base::{Memory, Name};
use ev_links::{Label, Link, Links, Way, list_label, name_label};
use std::alloc::Global;

/// Something leads to a thing.
fn lead_to(links: &mut Links, alloc: Global, link: &Link, to: Label) -> Result<(), Memory>
    ensures { OnOk result (AddsEach link.now (to ∷ []) links.old links.new) }
{
    links.add(alloc, to, *link)
}

/// Something leads to a name.
fn lead_to_name(links: &mut Links, alloc: Global, link: &Link, name: &Name) -> Result<(), Memory>
    ensures { OnOk result (AddsEach link.now (map label (AName name.now ∷ [])) links.old links.new) }
{
    lead_to(links, alloc, link, name_label(name))
}

/// Something leads to what a value is.
#[tactic(auto, using(crate::proofs::Leading::none_added), unfolding(def_event::specs::Uses::things_of))]
fn lead_to_value(links: &mut Links, alloc: Global, link: &Link, value: &Shown) -> Result<(), Memory>
    ensures { OnOk result (AddsEach link.now (map label (things_of value.now)) links.old links.new) }
{
    match value {
        Shown::Name(name) => lead_to(links, alloc, link, name_label(name)),
        Shown::List(vat, number) => lead_to(links, alloc, link, list_label(vat, *number)),
        _ => Ok(()),
    }
}

/// Something leads to what values are.
fn lead_to_all(
    links: &mut Links,
    alloc: Global,
    link: &Link,
    values: &[Shown],
) -> Result<(), Memory>
    ensures { OnOk result (AddsEach link.now (map label (things values.now)) links.old links.new) }
{
    for value in values {
        lead_to_value(links, alloc, link, value)?;
    }
    Ok(())
}

/// The link from what settled, or has a view, at a place.
fn settled_link(at: u64, from: Label) -> Link
    ensures { result ≡ record { way = Settling at; other = from } }
{
    Link {
        way: Way::Settled(at),
        other: from,
    }
}

/// The link from a list.
fn list_link(from: Label) -> Link
    ensures { result ≡ record { way = Listing; other = from } }
{
    Link {
        way: Way::Listed,
        other: from,
    }
}

/// What an event says of what leads to what.
#[tactic(auto, using(crate::proofs::Leading::led_added, crate::proofs::Leading::no_leads), unfolding(def_event::specs::Uses::leads))]
fn tell_event(links: &mut Links, alloc: Global, at: u64, event: &Event) -> Result<(), Memory>
    ensures { OnOk result (AddsLeads (leads at event.now) links.old links.new) }
{
    match event {
        Event::Settle(name, value) => {
            let link = settled_link(at, name_label(name));
            lead_to_value(links, alloc, &link, value)
        }
        Event::View(name, view) => {
            let link = settled_link(at, name_label(name));
            lead_to_name(links, alloc, &link, view)
        }
        Event::List(_, list, members) => {
            let link = list_link(list_label(&list.0, list.1));
            lead_to_all(links, alloc, &link, members.as_slice())
        }
        Event::Arrived(list, members) => {
            let link = list_link(list_label(&list.0, list.1));
            lead_to_all(links, alloc, &link, members.as_slice())
        }
        _ => Ok(()),
    }
}

/// Adds what a line at a place says of what leads to what. Links that stand for the lines before it stand for these and the line.
pub fn tell_leads(links: &mut Links, alloc: Global, at: u64, event: &Event) -> Result<(), Memory>
    ensures { (past : List Line) → LinksStand links.old past → OnOk result (LinksStand links.new (record { at = at; event = event.now } ∷ past)) }
{
    tell_event(links, alloc, at, event)
}
