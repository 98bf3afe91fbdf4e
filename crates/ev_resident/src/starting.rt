//! The names of a vat at its start.

ghost use Rattle.std.specs.Prelude.{◌≡◌, IfOk};
ghost use Rattle.ev_resident.specs.Names.{names_first};
ghost use Rattle.ev_resident.specs.Starting.{with_roots};

use crate::VatNames;
use ev_base::{Memory, VatId};
use std::alloc::Global;

/// The names of a vat at its start, in a run of so many vats: the first thing that each vat that it knows exported to it is a root.
pub fn first_names(alloc: Global, me: VatId, count: u8, knows: &[VatId]) -> Result<VatNames, Memory>
    ensures { IfOk result (λ names. names ≡ with_roots knows.now (names_first me knows.now count)) }
{
    let mut names = VatNames::new(alloc, me, knows, count)?;
    for vat in knows {
        names.import(*vat, 0)?;
    }
    Ok(names)
}
