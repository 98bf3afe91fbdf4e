//! Where a message is taken too early.

ghost use Rattle.std.specs.Prelude.{◌≡◌, Some};
ghost use Rattle.def_event.specs.Order.{JudgesOrder, is_object};
ghost use Rattle.ev_see_verdicts.specs.Judged.{IsFirstLine, TellsOrder, does};

use def_event::{Event, Shown};
use ev_base::{Msg, Name};

/// A message that is taken before another which was sent before it, by lines counted from 1.
#[derive(Clone, Copy, PartialEq, Eq)]
pub struct Overtaking {
    /// The message that was sent before.
    pub first: Msg,
    /// The line that sends it.
    pub sent: u64,
    /// The message that is taken too early.
    pub taken: Msg,
    /// The line that takes it.
    pub line: u64,
}

/// What a line does with a message.
#[derive(Clone, Copy, PartialEq, Eq)]
pub enum Deed {
    /// An object takes it.
    ByObject,
    /// It is sent.
    Sending,
}

fn is_object(value: &Shown) -> bool
    ensures { result ≡ is_object value.now }
{
    match value {
        Shown::Name(Name::Object(_, _)) => true,
        _ => false,
    }
}

/// Whether a line takes a message by an object.
#[tactic(auto, unfolding(crate::specs::Judged::does))]
fn takes(message: &Msg, event: &Event) -> bool
    ensures { result ≡ does Deed.ByObject message.now event.now }
{
    match event {
        Event::Take(taken) => {
            let taken = taken.get();
            is_object(&taken.target) && taken.message == *message
        }
        _ => false,
    }
}

/// Whether a line sends a message.
#[tactic(auto, unfolding(crate::specs::Judged::does))]
fn sends(message: &Msg, event: &Event) -> bool
    ensures { result ≡ does Deed.Sending message.now event.now }
{
    match event {
        Event::Send(sent) => sent.get().message == *message,
        Event::SendOnly(sent) => sent.get().message == *message,
        _ => false,
    }
}

/// Whether a line does that with a message.
fn does(deed: Deed, message: &Msg, event: &Event) -> bool
    ensures { result ≡ does deed message.now event.now }
{
    match deed {
        Deed::ByObject => takes(message, event),
        Deed::Sending => sends(message, event),
    }
}

/// The first line that does that with a message, counted from 1.
fn first_doing(deed: Deed, message: &Msg, events: &[Event]) -> Option<u64>
    ensures { IsFirstLine deed message.now events.now result }
{
    for (index, event) in events.iter().enumerate() {
        if does(deed, message, event) {
            return Some(index as u64 + 1);
        }
    }
    None
}

/// The lines of a message that is taken too early, and of the one that is before it.
pub fn with_lines(events: &[Event], first: &Msg, taken: &Msg) -> Option<Overtaking>
    ensures { JudgesOrder events.now (Some (first.now, taken.now)) → TellsOrder events.now result }
{
    let Some(line) = first_doing(Deed::ByObject, taken, events) else {
        return None;
    };
    let Some(sent) = first_doing(Deed::Sending, first, events) else {
        return None;
    };
    Some(Overtaking {
        first: *first,
        sent,
        taken: *taken,
        line,
    })
}
