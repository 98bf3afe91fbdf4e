//! Why a program is refused.

ghost use Rattle.std.specs.Prelude.{◌≡◌};
ghost use Rattle.ev_reader.specs.Stages.{word_of};

use ev_base::Memory;
use std::error::Error;
use std::fmt;

/// The part of the reading at which a program is refused.
#[derive(Clone, Copy, Debug)]
pub enum Stage {
    /// The text has no tokens.
    Lex,
    /// The tokens spell no tree.
    Parse,
    /// They spell one that is too high.
    Nested,
    /// The tree has no expansion.
    Expand,
    /// A name of the expansion is not rightly bound.
    Scope,
}

impl Stage {
    /// The word of the stage in a refusal.
    pub fn word(self) -> &'static str
        ensures { result.now ≡ word_of self }
    {
        match self {
            Stage::Lex => "lex",
            Stage::Parse => "parse",
            Stage::Nested => "nested",
            Stage::Expand => "expand",
            Stage::Scope => "scope",
        }
    }
}

/// Why a program is refused.
#[derive(Clone, Copy, Debug)]
pub enum ProgramFault {
    /// The stage, the kind of the fault there, and its place: a byte of the text for `Lex`, a node of the kernel tree for
    /// `Scope`, and else the number of a token. `Parse` and `Nested` have the one kind 0.
    At(Stage, u8, u64),
    Memory,
}

impl fmt::Display for ProgramFault {
    ghost use Rattle.std.specs.Prelude.{Some};
    ghost use Rattle.ev_reader.specs.Stages.{fault_text};

    ghost output = { λ fault. Some (fault_text fault) };

    fn fmt<W: fmt::Write>(&self, f: &mut fmt::Formatter<W>) -> fmt::Result {
        match self {
            ProgramFault::At(stage, kind, place) => {
                let word = stage.word();
                write!(f, "{word} {kind} {place}")
            }
            ProgramFault::Memory => write!(f, "out of memory"),
        }
    }
}

impl Error for ProgramFault {}

impl From<Memory> for ProgramFault {
    ghost use Rattle.std.specs.Prelude.{◌≡◌};
    ghost use Rattle.ev_reader.specs.declared.fault.ProgramFault.TheVariants.{Memory as NoMemory};

    ghost from_gives = { λ _ e. e ≡ NoMemory };

    fn from(_error: Memory) -> ProgramFault {
        ProgramFault::Memory
    }
}
