//! Numbers between two vats.

ghost use Rattle.std.specs.Prelude.{◌≡◌};
ghost use Rattle.def_op.specs.Views.{described};
ghost use Rattle.ev_tables.specs.Table.{description};

use def_op::Desc;

/// A number under which a vat names something to its peer. Positions and questions count from 0.
#[derive(Clone, Copy, PartialEq, Eq)]
pub enum Number {
    /// An object that this vat exported at this position.
    MyExport(u64),
    /// A promise that this vat exported at this position.
    MyPromise(u64),
    /// What the peer exported at this position.
    YourExport(u64),
    /// The answer of this vat's question.
    YourAnswer(u64),
    /// The answer of the peer's question.
    MyAnswer(u64),
}

impl Number {
    /// The description that says it to the peer. It takes no memory.
    pub fn desc(self) -> Desc
        ensures { described result ≡ description self }
    {
        match self {
            Number::MyExport(position) => Desc::MyExport(position),
            Number::MyPromise(position) => Desc::MyPromise(position),
            Number::YourExport(position) => Desc::YourExport(position),
            Number::YourAnswer(question) => Desc::YourAnswer(question),
            Number::MyAnswer(question) => Desc::MyAnswer(question),
        }
    }
}
