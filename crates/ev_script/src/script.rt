//! What a script is, and why bytes are none.

ghost use Rattle.std.specs.Prelude.{◌≡◌};

use ev_base::{Memory, Seq, Str, VatId};
use std::error::Error;
use std::fmt;

/// A vat of a script.
pub struct VatScript {
    /// Its name, which no other vat of the script has.
    pub name: Str,
    /// The vats that it knows from the start, in the order of the script.
    pub knows: Seq<VatId>,
    /// Its program, a text of E of at most 65,536 bytes.
    pub source: Str,
}

impl Drop for VatScript {
    fn drop(self) {
        let Self {
            name: _name,
            knows: _knows,
            source: _source,
        } = self;
    }
}

/// One step of a schedule.
#[derive(Clone, Copy)]
pub enum Entry {
    /// The vat takes its next turn.
    Turn(VatId),
    /// The first note on the way from the first vat to the second arrives.
    Carry(VatId, VatId),
    /// The link of the two vats is cut.
    Cut(VatId, VatId),
    /// The first vat notices that its link with the second is cut.
    Notice(VatId, VatId),
}

/// What a run is made of.
pub struct Script {
    /// The key of the draws.
    pub key: [u8; 32],
    /// How much the run may spend, from 1 to 10,000,000.
    pub fuel: u32,
    /// At most 16 vats; the number of a vat is its place here.
    pub vats: Seq<VatScript>,
    /// At most 100,000 entries, drains written out.
    pub schedule: Seq<Entry>,
}

impl Drop for Script {
    fn drop(self) {
        let Self {
            key: _,
            fuel: _,
            vats: _vats,
            schedule: _schedule,
        } = self;
    }
}

/// Why bytes gave no script.
#[derive(Clone, Copy, Debug)]
pub enum ScriptFault {
    /// The first rule that fails, from 1 to 12.
    Rule(u8),
    /// Want of memory.
    Memory,
}

impl fmt::Display for ScriptFault {
    ghost use Rattle.std.specs.Prelude.{Some};
    ghost use Rattle.ev_script.specs.Faults.{fault_text};

    ghost output = { λ fault. Some (fault_text fault) };

    fn fmt<W: fmt::Write>(&self, f: &mut fmt::Formatter<W>) -> fmt::Result {
        match self {
            ScriptFault::Rule(rule) => write!(f, "no script: rule {rule} fails"),
            ScriptFault::Memory => write!(f, "out of memory"),
        }
    }
}

impl Error for ScriptFault {}

impl From<Memory> for ScriptFault {
    ghost use Rattle.ev_script.specs.declared.script.ScriptFault.{ScriptFault};

    ghost from_gives = { λ _ fault. fault ≡ ScriptFault.Memory };

    fn from(_memory: Memory) -> ScriptFault {
        ScriptFault::Memory
    }
}
