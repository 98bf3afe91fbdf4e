//! All that is kept of the lines so far: what is known, and which calls are open.

ghost use Rattle.std.specs.Prelude.{◌≡◌, ◌↔◌, ◌∷◌, List, IfOk, IsTrue, OnOk};
ghost use Rattle.def_event.specs.Uses.{Line};
ghost use Rattle.ev_uses.specs.Kept.{KeptStand};
ghost use Rattle.ev_uses.specs.Using.{IsOfKnown};

use crate::calls::Calls;
use crate::returning::gives_back_known;
use crate::using::uses_known;
use def_event::Event;
use ev_base::Memory;
use ev_known::Knowledge;
use std::alloc::Global;

/// Whether a line at a place uses and gives back only what is known by the lines before it.
/// What is found to be known is kept.
pub fn is_of_known(
    knowledge: &mut Knowledge,
    calls: &Calls,
    alloc: Global,
    at: u64,
    event: &Event,
) -> Result<bool, Memory>
    ensures { (past : List Line) → KeptStand knowledge.old calls.now past → IfOk result (λ known. (IsTrue known ↔ IsOfKnown past (record { at = at; event = event.now })) × KeptStand knowledge.new calls.now past) }
{
    if !uses_known(knowledge, alloc, at, event)? {
        return Ok(false);
    }
    gives_back_known(knowledge, calls, alloc, at, event)
}

/// A line at a place is told. What stands for the lines before it stands for these and the line.
pub fn tell_line(
    knowledge: &mut Knowledge,
    calls: &mut Calls,
    alloc: Global,
    at: u64,
    event: &Event,
) -> Result<(), Memory>
    ensures { (past : List Line) → KeptStand knowledge.old calls.old past → OnOk result (KeptStand knowledge.new calls.new (record { at = at; event = event.now } ∷ past)) }
{
    calls.tell_line(alloc, knowledge, at, event)?;
    knowledge.tell_line(alloc, at, event)
}
