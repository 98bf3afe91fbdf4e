//! Why a frame was not heard.

use ev_base::Memory;

/// Why a frame was not heard.
#[derive(Clone, Copy, PartialEq, Eq)]
pub enum HearFault {
    /// It names a number that is not there, or what may not stand in its place.
    Malformed,
    Memory,
}

impl From<Memory> for HearFault {
    ghost use Rattle.std.specs.Prelude.{◌≡◌};
    ghost use Rattle.ev_wire.specs.declared.fault.HearFault.TheVariants.{Memory as NoMemory};

    ghost from_gives = { λ _ e. e ≡ NoMemory };

    fn from(_error: Memory) -> HearFault {
        HearFault::Memory
    }
}
