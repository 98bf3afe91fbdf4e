//! What a history tells of frames that do not arrive.

ghost use Rattle.std.specs.Prelude.{◌≡◌, ◌++◌, OnOk};
ghost use Rattle.ev_ways.specs.Telling.{left_labels, lost_event, lost_labels};

use crate::frame::Label;
use def_event::boxed::Boxed;
use def_event::event::Event;
use ev_base::{Memory, Msg, VatId};
use ev_event::History;
use std::alloc::Global;
use std::collections::VecDeque;

/// The message that a frame brings is lost, if it brings one.
#[tactic(auto, unfolding(crate::specs::Telling::lost_event))]
fn tell_one(history: &mut History, message: Option<Msg>) -> Result<(), Memory>
    ensures { OnOk result (history.new ≡ history.old ++ lost_event message) }
{
    match message {
        None => Ok(()),
        Some(message) => history.push(Event::LostCut(message)),
    }
}

/// The messages that the frames of these labels bring are lost, in order.
pub fn tell_lost(history: &mut History, labels: VecDeque<Label>) -> Result<(), Memory>
    ensures { OnOk result (history.new ≡ history.old ++ lost_labels labels.items) }
{
    let mut labels = labels;
    while let Some(label) = labels.pop_front() {
        tell_one(history, label.into_message())?;
    }
    Ok(())
}

/// The frames of these labels are left on the way from one vat to another.
pub fn tell_left(
    alloc: Global,
    history: &mut History,
    from: VatId,
    to: VatId,
    labels: VecDeque<Label>,
) -> Result<(), Memory>
    ensures { OnOk result (history.new ≡ history.old ++ left_labels from to labels.items) }
{
    let mut labels = labels;
    while let Some(label) = labels.pop_front() {
        let Label { note, .. } = label;
        let note = Boxed::new(alloc, note)?;
        history.push(Event::LeftLink(from, to, note))?;
    }
    Ok(())
}
