//! How a run ended, and the line of one that stopped.

ghost use Rattle.std.specs.Prelude.{◌≡◌, IfOk, map};
ghost use Rattle.ev_world.specs.Ends.{StoppedAs};

use ev_base::{Memory, Seq, Str};
use ev_resident::VatStop;
use ev_script::VatScript;
use std::alloc::Global;

/// How a run ended. A step is told by its number: the opening turns from 0, and then the entries of the schedule.
#[derive(Clone, Copy, PartialEq, Eq)]
pub enum RunEnd {
    /// It came to its end.
    Done,
    /// The fuel did not suffice for that step.
    FuelSpent(u64),
    /// In that step a node would have begun below the greatest depth.
    TooDeep(u64),
    /// The second of these draws gave the word of the first.
    WordRepeated(u64, u64),
    /// In that step a program met a noun that nothing binds, or a number that names no node of its kind, or a frame was malformed.
    Astray(u64),
}

/// How a run ended, and a line that tells it.
#[derive(Drop)]
pub(crate) struct Told {
    pub(crate) end: RunEnd,
    pub(crate) text: String,
}

/// The names of the vats of a script.
pub(crate) fn names_of(alloc: Global, vats: &[VatScript]) -> Result<Seq<Str>, Memory>
    ensures { IfOk result (λ names. names ≡ map (λ vat. vat.name) vats.now) }
{
    let mut names = Seq::new(alloc);
    for vat in vats {
        names.push(Str::copy_of(alloc, vat.name.as_str())?)?;
    }
    Ok(names)
}

/// How a run ended that stopped so in that step, and the line that tells of it.
#[tactic(auto, unfolding(def_run::specs::Text::stop_line))]
pub(crate) fn stopped(alloc: Global, stop: VatStop, step: u64) -> Result<Told, Memory>
    ensures { StoppedAs stop step result }
{
    match stop {
        VatStop::Fuel => Ok(Told {
            end: RunEnd::FuelSpent(step),
            text: format!(in alloc; "stop fuel {step}\n")?,
        }),
        VatStop::Deep => Ok(Told {
            end: RunEnd::TooDeep(step),
            text: format!(in alloc; "stop depth {step}\n")?,
        }),
        VatStop::WordRepeated(first, second) => Ok(Told {
            end: RunEnd::WordRepeated(first, second),
            text: format!(in alloc; "stop word {first} {second}\n")?,
        }),
        VatStop::Astray => Ok(Told {
            end: RunEnd::Astray(step),
            text: format!(in alloc; "stop astray {step}\n")?,
        }),
        VatStop::Memory => Err(Memory),
    }
}
