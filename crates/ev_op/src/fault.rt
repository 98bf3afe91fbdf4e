//! Why a reading ends.

ghost use Rattle.std.specs.Prelude.{◌≡◌};
ghost use Rattle.ev_op.specs.declared.fault.ReadError.TheVariants.{Memory};

use std::alloc::{AllocError, AllocFailed};

/// Want of memory, or nothing allowed at this place.
#[derive(Clone, Copy)]
pub enum ReadError {
    Memory,
    Refused,
}

impl From<AllocError> for ReadError {
    ghost from_gives = { λ _ e. e ≡ Memory };

    fn from(_error: AllocError) -> ReadError {
        ReadError::Memory
    }
}

impl<T: Drop> From<AllocFailed<T>> for ReadError {
    ghost from_gives = { λ _ e. e ≡ Memory };

    fn from(_error: AllocFailed<T>) -> ReadError {
        ReadError::Memory
    }
}

impl From<ev_base::Memory> for ReadError {
    ghost from_gives = { λ _ e. e ≡ Memory };

    fn from(_error: ev_base::Memory) -> ReadError {
        ReadError::Memory
    }
}
