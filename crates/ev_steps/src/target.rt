//! What patterns of one name bind.

use ev_base::Word;

/// What a pattern binds to a value that its guard has coerced.
pub enum Target {
    /// A noun, for good.
    Final(Word),
    /// A noun, to a new var slot.
    Var(Word),
    /// Nothing.
    Nothing,
}

impl Drop for Target {
    fn drop(self) {
        match self {
            Self::Final(_word) => {}
            Self::Var(_word) => {}
            Self::Nothing => {}
        }
    }
}
