//! What references do, as an activation does it: a stop of theirs is one of the evaluation.

ghost use Rattle.std.specs.Prelude.{◌≡◌};
ghost use Rattle.ev_steps.specs.Eventual.{exit_of, lifted_by};

use ev_pass::Stop;
use ev_room::Exit;

/// The end of an evaluation in which references stop. A text that is missing goes astray: none is, where the heap has what the references
/// hold.
#[tactic(auto, unfolding(crate::specs::Eventual::opened_eventual))]
fn exit_of(stop: Stop) -> Exit
    ensures { result ≡ exit_of stop }
{
    match stop {
        Stop::Fuel => Exit::Fuel,
        Stop::Repeated(first, second) => Exit::Repeated(first, second),
        Stop::Astray | Stop::Missing => Exit::Astray,
        Stop::Memory => Exit::Memory,
    }
}

/// What references gave, or the end of the evaluation in which they stop.
#[tactic(auto, unfolding(crate::specs::Eventual::opened_eventual))]
pub(crate) fn lifted<T>(outcome: Result<T, Stop>) -> Result<T, Exit>
    ensures { result ≡ lifted_by outcome }
{
    match outcome {
        Ok(given) => Ok(given),
        Err(stop) => Err(exit_of(stop)),
    }
}
