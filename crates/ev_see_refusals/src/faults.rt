//! Points that fail.

ghost use Rattle.std.specs.Prelude.{◌≡◌, ◌+◌};
ghost use Rattle.def_why.specs.Faults.{or_else, unless};

use def_why::{About, Fault, Reason};
use ev_base::VatId;

/// The place of a vat.
pub fn place_of(vat: VatId) -> u64
    ensures { result ≡ vat + 1 }
{
    u64::from(vat.0) + 1
}

/// A point that fails unless this is so.
pub fn unless(so: bool, reason: Reason, about: About) -> Option<Fault>
    ensures { result ≡ unless so reason about }
{
    if so {
        return None;
    }
    Some(Fault { reason, about })
}

/// The first point that fails.
pub fn or_else(first: Option<Fault>, other: Option<Fault>) -> Option<Fault>
    ensures { result ≡ or_else first other }
{
    match first {
        Some(fault) => Some(fault),
        None => other,
    }
}
