//! What a whole history carries last, and sends first, with each message.

ghost use Rattle.std.specs.Prelude.{◌≡◌, [], OnOk};
ghost use Rattle.def_event.specs.Uses.{arguments_in};
ghost use Rattle.ev_uses.specs.Finding.{SourcesStand, things_at};
ghost use Rattle.ev_uses.specs.Lines.{AddsThings, carries, sends};

use crate::lines::{add_carried, add_sent, carried_message, sent_message};
use crate::places::Places;
use def_event::Event;
use ev_base::{Memory, Msg};
use ev_links::Labels;
use std::alloc::Global;

/// The places of the last line that carries each message, and of the first line that sends it.
#[derive(Drop)]
pub struct Sources {
    carried: Places,
    sent: Places,
}

/// Adds what the line at a place carries.
#[tactic(auto, using(crate::proofs::Adding::none_added), unfolding(crate::specs::Finding::things_at))]
fn add_carried_at(
    alloc: Global,
    labels: &mut Labels,
    events: &[Event],
    place: usize,
) -> Result<(), Memory>
    ensures { OnOk result (AddsThings (things_at carries events.now place) labels.old labels.new) }
{
    match events.get(place) {
        Some(event) => add_carried(alloc, labels, event),
        None => Ok(()),
    }
}

/// Adds what the line at a place sends.
#[tactic(auto, using(crate::proofs::Adding::none_added), unfolding(crate::specs::Finding::things_at))]
fn add_sent_at(
    alloc: Global,
    labels: &mut Labels,
    events: &[Event],
    place: usize,
) -> Result<(), Memory>
    ensures { OnOk result (AddsThings (things_at sends events.now place) labels.old labels.new) }
{
    match events.get(place) {
        Some(event) => add_sent(alloc, labels, event),
        None => Ok(()),
    }
}

impl Sources {
    /// No places. It takes no memory.
    pub fn new(alloc: Global) -> Sources
        ensures carried { result.carried ≡ [] }
        ensures sent { result.sent ≡ [] }
    {
        Sources {
            carried: Places::new(alloc),
            sent: Places::new(alloc),
        }
    }

    /// Puts the places of the lines of a whole history, where there are none.
    pub fn put_lines(&mut self, events: &[Event]) -> Result<(), Memory>
        ensures { self.old.carried ≡ [] → self.old.sent ≡ [] → OnOk result (SourcesStand events.now self.new events.now) }
    {
        for (index, event) in events.iter().enumerate() {
            self.carried.put(carried_message(event), index)?;
            self.sent.note(sent_message(event), index)?;
        }
        Ok(())
    }

    /// Adds what a message of the history was sent with: what its last carry line has, else what the first line that sends it has.
    pub fn add_arguments(
        &self,
        alloc: Global,
        labels: &mut Labels,
        events: &[Event],
        message: &Msg,
    ) -> Result<(), Memory>
        ensures { SourcesStand events.now self.now events.now → OnOk result (AddsThings (arguments_in events.now message.now) labels.old labels.new) }
    {
        if let Some(place) = self.carried.find(message) {
            return add_carried_at(alloc, labels, events, place);
        }
        let Some(place) = self.sent.find(message) else {
            return Ok(());
        };
        add_sent_at(alloc, labels, events, place)
    }
}
