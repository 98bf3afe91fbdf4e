//! The places of lines, which are those of their vats.

ghost use Rattle.std.specs.Prelude.{◌≡◌};
ghost use Rattle.def_event.specs.Uses.{place_after, raw_place};

use crate::faults::place_of;
use def_event::{Event, RawLine};

/// The place of a line about a frame: that of the vat to which it comes, and 0 where it is put on a link.
#[tactic(auto, unfolding(def_event::specs::Uses::raw_place))]
fn raw_place(at: u64, line: &RawLine) -> u64
    ensures { result ≡ raw_place at line.now }
{
    match line {
        RawLine::Inject(_, _, _, _) | RawLine::InjectCut(_, _, _) => 0,
        RawLine::Malformed(_, _, vat, _) | RawLine::Bytes(_, _, vat, _) => place_of(*vat),
        RawLine::LeftBytes(_, _, _) => at,
    }
}

/// The place of a line, by that of the line before it: the number of the vat of its step from 1 on, or 0 where it has none.
#[tactic(auto, unfolding(def_event::specs::Uses::place_after))]
pub fn place_after(at: u64, event: &Event) -> u64
    ensures { result ≡ place_after at event.now }
{
    match event {
        Event::Open(vat) => place_of(*vat),
        Event::Turn(_, vat) => place_of(*vat),
        Event::Notice(_, vat, _) => place_of(*vat),
        Event::Carry(_, _, vat, _) => place_of(*vat),
        Event::Idle(_) => 0,
        Event::Cut(_, _, _) => 0,
        Event::Raw(line) => raw_place(at, line),
        _ => at,
    }
}
