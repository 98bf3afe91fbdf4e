//! All verdicts on a history.

ghost use Rattle.std.specs.Prelude.{◌≡◌, IfOk};
ghost use Rattle.ev_see_verdicts.specs.Judged.{Judges, TellsOrder, TellsStrict, TellsUses};

use crate::slots::tell_slots;
use def_event::{Event, Trace};
use def_why::{Question, Refusal};
use ev_base::Memory;
use ev_order::judge_order;
use ev_see_refusals::first_refusal;
use ev_see_verdicts::order::with_lines;
use ev_see_verdicts::uses::point_at;
use ev_see_verdicts::verdicts::earlier;
use ev_see_verdicts::{Overtaking, Unfounded, Verdicts};
use ev_uses::judge_uses;
use std::alloc::Global;

/// Whether each message that an object takes is taken after all that are before it, or the first that is not, with its lines.
fn tell_order(alloc: Global, trace: &Trace) -> Result<Option<Overtaking>, Memory>
    ensures { IfOk result (λ told. TellsOrder trace.now.history told) }
{
    match judge_order(alloc, trace)? {
        Some((first, taken)) => Ok(with_lines(trace.history.as_slice(), &first, &taken)),
        None => Ok(None),
    }
}

/// Whether each line uses only what is known, or the first that does not, and the point that fails.
fn tell_uses(alloc: Global, trace: &Trace) -> Result<Option<Unfounded>, Memory>
    ensures { IfOk result (λ told. TellsUses trace.now.history told) }
{
    match judge_uses(alloc, trace)? {
        Some(line) => Ok(Some(Unfounded {
            line,
            point: point_at(trace.history.as_slice(), line),
        })),
        None => Ok(None),
    }
}

/// What is told of what is believed, where that is asked.
fn tell_strict(alloc: Global, is_strict: bool, events: &[Event]) -> Result<Option<Refusal>, Memory>
    ensures { IfOk result (λ told. TellsStrict is_strict events.now told) }
{
    if !is_strict {
        return Ok(None);
    }
    let refusal = first_refusal(alloc, Question::Strict, events)?;
    let slots = tell_slots(alloc, events)?;
    Ok(earlier(refusal, slots))
}

/// All verdicts on a history.
pub fn judge(alloc: Global, trace: &Trace, is_strict: bool) -> Result<Verdicts, Memory>
    ensures { IfOk result (λ v. Judges is_strict trace.now.history v) }
{
    let events = trace.history.as_slice();
    let order = tell_order(alloc, trace)?;
    let uses = tell_uses(alloc, trace)?;
    let taken = first_refusal(alloc, Question::Taken, events)?;
    let settled = first_refusal(alloc, Question::Settled, events)?;
    let strict = tell_strict(alloc, is_strict, events)?;
    Ok(Verdicts {
        order,
        uses,
        taken,
        settled,
        is_strict,
        strict,
    })
}
