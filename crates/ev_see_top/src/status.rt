//! How the program ends.

/// How the program ends.
#[derive(Clone, Copy)]
pub enum SeeStatus {
    /// What was asked is written.
    Done,
    /// What was asked is written, and a verdict is no.
    Refused,
    /// The words ask nothing that the program answers.
    Usage,
    ReadFault,
    WriteFault,
    /// The input has more than `MOST_BYTES`.
    TooLong,
    /// The input is no history.
    NoHistory,
    Memory,
}

impl SeeStatus {
    ghost use Rattle.std.specs.Prelude.{◌≡◌};
    ghost use Rattle.ev_see_top.specs.Codes.{code_of};

    /// The code with which the program ends: that of the same status of `evat`, and 1 where a verdict is no.
    pub fn code(&self) -> u8
        ensures { result ≡ code_of self.now }
    {
        match self {
            SeeStatus::Done => 0,
            SeeStatus::Refused => 1,
            SeeStatus::Usage => 2,
            SeeStatus::ReadFault => 3,
            SeeStatus::WriteFault => 4,
            SeeStatus::TooLong => 5,
            SeeStatus::NoHistory => 6,
            SeeStatus::Memory => 11,
        }
    }
}
