//! How evaluation ends without a value.

use ev_base::{Memory, ObjId, TextId, Value};

/// Why evaluation gave no value.
#[derive(Clone, Copy)]
pub enum Exit {
    /// A problem was thrown.
    Thrown(TextId),
    /// An ejector was called, which leaves to its escape with that value.
    Ejected(ObjId, Value),
    /// The fuel did not suffice for a node that began.
    Fuel,
    /// A node would have begun below the greatest depth.
    Deep,
    /// The second of these draws gives the word of the first.
    Repeated(u64, u64),
    /// A noun that nothing binds, or a number that names no node of its kind.
    Astray,
    Memory,
}

impl From<Memory> for Exit {
    ghost use Rattle.std.specs.Prelude.{◌≡◌};
    ghost use Rattle.ev_room.specs.declared.exit.Exit.TheVariants.{Memory as NoMemory};

    ghost from_gives = { λ _ e. e ≡ NoMemory };

    fn from(_error: Memory) -> Exit {
        Exit::Memory
    }
}

/// How something came to an end that did not stop.
#[derive(Clone, Copy)]
pub enum Came {
    /// It gave a value.
    Gave(Value),
    /// It threw a problem.
    Threw(TextId),
    /// It was left by an ejector, with a value.
    Left(ObjId, Value),
}
