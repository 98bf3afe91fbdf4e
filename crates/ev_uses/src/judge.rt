//! The first line of a trace whose use is not founded on the lines before it.

ghost use Rattle.std.specs.Prelude.{◌≡◌, IfOk};
ghost use Rattle.def_event.specs.Uses.{JudgesUses};
ghost use Rattle.ev_uses.specs.Earlier.{earlier};

use crate::changed::first_changed;
use crate::unknown::first_unknown;
use crate::unsent::first_unsent;
use def_event::Trace;
use ev_base::Memory;
use std::alloc::Global;

/// The lesser of two numbers, where there are any.
fn earlier(first: Option<u64>, second: Option<u64>) -> Option<u64>
    ensures { result ≡ earlier first second }
{
    let Some(number) = first else {
        return second;
    };
    let Some(other) = second else {
        return first;
    };
    if number < other {
        return first;
    }
    second
}

/// Whether each line of a trace uses, gives back, takes and carries only what the lines before it give to who does so. None
/// says that it is so. Else the answer is the first line of which it does not hold, counted from 1.
///
/// Time grows with the trace, and with what leads to each name that an activation does not have by itself, up to the nearest that it
/// has or was found to know.
pub fn judge_uses(alloc: Global, trace: &Trace) -> Result<Option<u64>, Memory>
    ensures { IfOk result (λ answer. JudgesUses trace.now.history answer) }
{
    let events = trace.history.as_slice();
    let unknown = first_unknown(alloc, events)?;
    let changed = first_changed(alloc, events)?;
    let unsent = first_unsent(alloc, events)?;
    let message = earlier(changed, unsent);
    Ok(earlier(unknown, message))
}
