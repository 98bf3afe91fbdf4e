//! Whether some names stand among others.

ghost use Rattle.std.specs.Prelude.{◌≡◌, ◌↔◌, IsTrue};
ghost use Rattle.ev_uses.specs.Sought.{has_sought, is_sought};

use ev_links::{Kind, Label, Labels};

/// What is sought. A list never is.
#[derive(Clone, Copy)]
pub enum Sought {
    /// Each name.
    Names,
    /// Each name that is no gift.
    NoGifts,
}

/// Whether a label is sought.
fn is_sought(sought: Sought, label: &Label) -> bool
    ensures { result ≡ is_sought sought label.now }
{
    match label.kind {
        Kind::List => false,
        Kind::Gift | Kind::Claimed => match sought {
            Sought::Names => true,
            Sought::NoGifts => false,
        },
        _ => true,
    }
}

/// Whether those of others that are sought stand among labels.
pub fn has_sought(labels: &Labels, sought: Sought, others: &[Label]) -> bool
    ensures { result ≡ has_sought sought labels.now others.now }
{
    for other in others {
        if is_sought(sought, other) && !labels.has(*other) {
            return false;
        }
    }
    true
}

/// Whether two have the same labels in the same order.
pub fn are_same(labels: &[Label], others: &[Label]) -> bool
    ensures { IsTrue result ↔ (labels.now ≡ others.now) }
{
    labels == others
}
