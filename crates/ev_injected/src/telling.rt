//! What a history tells of injected frames that do not arrive.

ghost use Rattle.std.specs.Prelude.{◌≡◌, ◌++◌, List, [], OnOk};
ghost use Rattle.def_hostile.specs.Hostile.{frames_at, with_frames};
ghost use Rattle.ev_injected.specs.Telling.{left_frames};

use crate::injected::Injected;
use def_event::event::Event;
use def_event::raw::RawLine;
use ev_base::{Memory, Seq, VatId};
use ev_event::History;
use std::alloc::Global;
use std::collections::VecDeque;

/// These frames are left on the way from one vat to another.
fn tell_frames(
    history: &mut History,
    from: VatId,
    to: VatId,
    frames: VecDeque<Seq<u8>>,
) -> Result<(), Memory>
    ensures { OnOk result (history.new ≡ history.old ++ left_frames from to frames.items) }
{
    let mut frames = frames;
    while let Some(frame) = frames.pop_front() {
        history.push(Event::Raw(RawLine::LeftBytes(from, to, frame)))?;
    }
    Ok(())
}

impl Injected {
    /// The frames from one vat to another are left at the end: each is told, in order, and taken.
    pub fn tell_left(
        &mut self,
        alloc: Global,
        history: &mut History,
        from: VatId,
        to: VatId,
    ) -> Result<(), Memory>
        ensures told { OnOk result (history.new ≡ history.old ++ left_frames from to (frames_at from to self.old)) }
        ensures taken { self.new ≡ with_frames (λ fs. []) from to self.old }
    {
        let frames = self.take_all(alloc, from, to);
        tell_frames(history, from, to, frames)
    }
}
