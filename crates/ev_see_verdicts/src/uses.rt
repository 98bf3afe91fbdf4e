//! Where a line uses what is not known.

ghost use Rattle.std.specs.Prelude.{◌≡◌, ◌-◌, slice_get};
ghost use Rattle.ev_see_verdicts.specs.Judged.{point_at, point_of, slot_unknown, slot_unknown_at};

use def_event::Event;
use def_why::{About, Fault, Reason, Refusal};

/// The point of uses that fails.
#[derive(Clone, Copy, PartialEq, Eq)]
pub enum Point {
    /// What a line uses is known to its activation, or made by the line.
    Used,
    /// What a call gives back is known to who gives it.
    GivenBack,
    /// A message is taken with the names that it came with.
    TakenOtherwise,
    /// What a note carries stood in the line before of its message.
    Added,
}

/// The first line that uses what is not known, counted from 1, and the point that fails.
#[derive(Clone, Copy, PartialEq, Eq)]
pub struct Unfounded {
    pub line: u64,
    pub point: Point,
}

/// The point that can fail of a line.
#[tactic(auto, unfolding(crate::specs::Judged::point_of))]
fn point_of(event: &Event) -> Point
    ensures { result ≡ point_of event.now }
{
    match event {
        Event::Take(_) => Point::TakenOtherwise,
        Event::Carry(_, _, _, _) => Point::Added,
        Event::Back(_, _) => Point::GivenBack,
        _ => Point::Used,
    }
}

/// The point that fails at a line, counted from 1.
pub fn point_at(events: &[Event], line: u64) -> Point
    ensures { result ≡ point_at (slice_get events.now (line - 1)) }
{
    match events.get(line.saturating_sub(1) as usize) {
        Some(event) => point_of(event),
        None => Point::Used,
    }
}

/// What is told of the line of a slot, counted from 1, whose maker does not know what it holds.
#[tactic(auto, unfolding(crate::specs::Judged::slot_unknown))]
fn slot_unknown(line: u64, event: &Event) -> Option<Refusal>
    ensures { result ≡ slot_unknown line event.now }
{
    match event {
        Event::Slot(_, slot, _) => Some(Refusal {
            line,
            fault: Fault {
                reason: Reason::SlotUnknown,
                about: About::Slot(slot.0, slot.1),
            },
        }),
        _ => None,
    }
}

/// The same of the line of this number.
pub fn slot_unknown_at(events: &[Event], line: u64) -> Option<Refusal>
    ensures { result ≡ slot_unknown_at line (slice_get events.now (line - 1)) }
{
    match events.get(line.saturating_sub(1) as usize) {
        Some(event) => slot_unknown(line, event),
        None => None,
    }
}
