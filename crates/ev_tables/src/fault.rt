//! Why a table did not take a number.

ghost use Rattle.std.specs.Prelude.{◌≡◌};
ghost use Rattle.ev_tables.specs.declared.fault.TableFault.TheVariants.{Memory};

use std::error::Error;
use std::fmt;

/// Why a table did not take or give a number.
#[derive(Clone, Copy, Debug, PartialEq, Eq)]
pub enum TableFault {
    /// The connection is closed.
    Closed,
    /// The number is not the next one, which this is.
    WrongNumber(u64),
    Memory,
}

impl fmt::Display for TableFault {
    ghost use Rattle.std.specs.Prelude.{Some};
    ghost use Rattle.ev_tables.specs.Message.{fault_text};

    ghost output = { λ fault. Some (fault_text fault) };

    fn fmt<W: fmt::Write>(&self, f: &mut fmt::Formatter<W>) -> fmt::Result {
        match *self {
            TableFault::Closed => write!(f, "the connection is closed"),
            TableFault::WrongNumber(next) => write!(f, "the next number is {next}"),
            TableFault::Memory => write!(f, "out of memory"),
        }
    }
}

impl Error for TableFault {}

impl From<ev_base::Memory> for TableFault {
    ghost from_gives = { λ _ e. e ≡ Memory };

    fn from(_error: ev_base::Memory) -> TableFault {
        TableFault::Memory
    }
}
