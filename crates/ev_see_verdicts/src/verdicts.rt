//! The verdicts on a history.

ghost use Rattle.std.specs.Prelude.{◌≡◌};
ghost use Rattle.ev_see_verdicts.specs.Judged.{all_yes, earlier};

use crate::order::Overtaking;
use crate::uses::Unfounded;
use def_why::Refusal;

/// The verdicts on a history: none where it is yes.
#[derive(Drop)]
pub struct Verdicts {
    /// Each message that an object takes is taken after all that are before it.
    pub order: Option<Overtaking>,
    /// Each line uses what is known.
    pub uses: Option<Unfounded>,
    /// Each message is taken once, and only where it was carried to.
    pub taken: Option<Refusal>,
    /// Each name settles once at a vat.
    pub settled: Option<Refusal>,
    /// Whether it is asked if what is believed else holds.
    pub is_strict: bool,
    pub strict: Option<Refusal>,
}

/// That of the earlier line.
pub fn earlier(first: Option<Refusal>, other: Option<Refusal>) -> Option<Refusal>
    ensures { result ≡ earlier first other }
{
    match first {
        None => other,
        Some(refusal) => match other {
            None => Some(refusal),
            Some(second) => {
                if second.line < refusal.line {
                    Some(second)
                } else {
                    Some(refusal)
                }
            }
        },
    }
}

/// Whether each verdict is yes.
pub fn all_yes(found: &Verdicts) -> bool
    ensures { result ≡ all_yes found.now }
{
    found.order.is_none()
        && found.uses.is_none()
        && found.taken.is_none()
        && found.settled.is_none()
        && found.strict.is_none()
}
