//! What the top call answers.

/// The stage at which a source was refused.
#[derive(Clone, Copy)]
pub enum Stage {
    /// The text has no tokens. The place is a byte of the text.
    Lex,
    /// The tokens spell no tree. The place is the number of a token, as for `Nested` and `Expand`.
    Parse,
    /// The tokens spell a tree that is too high.
    Nested,
    /// The tree has no expansion.
    Expand,
    /// A name is not rightly bound. The place is the number of a node of the kernel tree.
    Scope,
    /// The run met a noun that nothing binds, or a number that names no node of its kind. The place is 0. `top` never
    /// answers so, by `laws::no_run_goes_astray`: the machine has such a stop, so the run of a script has a status for it.
    Astray,
}

/// Where and why a source was refused.
#[derive(Clone, Copy)]
pub struct Refusal {
    pub vat: u8,
    pub stage: Stage,
    pub kind: u8,
    pub place: u64,
}

/// What the top call answers. Steps are counted from 0 over the opening turns and then the entries.
#[derive(Clone, Copy)]
pub enum Status {
    Done,
    Usage,
    ReadFault,
    WriteFault,
    TooLong,
    ScriptRefused(u8),
    ProgramRefused(Refusal),
    /// This step of the run needed more fuel than was left.
    FuelSpent(u64),
    /// In this step of the run a node would have begun below the greatest depth.
    TooDeep(u64),
    /// The second of these draws gave what the first gave.
    WordRepeated(u64, u64),
    Memory,
}

impl Status {
    ghost use Rattle.std.specs.Prelude.{◌≡◌};
    ghost use Rattle.ev_io.specs.Codes.{code_of};

    /// The code with which the program ends.
    pub fn code(&self) -> u8
        ensures { result ≡ code_of self.now }
    {
        match self {
            Status::Done => 0,
            Status::Usage => 2,
            Status::ReadFault => 3,
            Status::WriteFault => 4,
            Status::TooLong => 5,
            Status::ScriptRefused(_) => 6,
            Status::ProgramRefused(_) => 7,
            Status::FuelSpent(_) => 8,
            Status::TooDeep(_) => 9,
            Status::WordRepeated(_, _) => 10,
            Status::Memory => 11,
        }
    }
}
