//! How the program ends.

/// How the program ends.
#[derive(Clone, Copy)]
pub enum MakeStatus {
    /// What was asked is written.
    Done,
    /// The words ask nothing that the program does.
    Usage,
    ReadFault,
    WriteFault,
    /// The input has more than `MOST_BYTES`.
    TooLong,
    /// The input says nothing.
    Refused,
    Memory,
}

impl MakeStatus {
    ghost use Rattle.std.specs.Prelude.{◌≡◌};
    ghost use Rattle.ev_make_top.specs.Codes.{code_of};

    /// The code with which the program ends: that of the same status of `evat`.
    pub fn code(&self) -> u8
        ensures { result ≡ code_of self.now }
    {
        match self {
            MakeStatus::Done => 0,
            MakeStatus::Usage => 2,
            MakeStatus::ReadFault => 3,
            MakeStatus::WriteFault => 4,
            MakeStatus::TooLong => 5,
            MakeStatus::Refused => 6,
            MakeStatus::Memory => 11,
        }
    }
}
