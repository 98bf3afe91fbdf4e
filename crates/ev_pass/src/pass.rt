//! Passing: one argument, or the target of what a name settled to.

ghost use Rattle.std.specs.Prelude.{◌≡◌};
ghost use Rattle.ev_pass.specs.Acts.{Shows};
ghost use Rattle.ev_pass.specs.Notes.{all_parcels, parcel};
ghost use Rattle.ev_pass.specs.Passing.{pass, pass_weighed, packs};

use crate::address::add;
use crate::interior::{Interior, Stop};
use crate::measure::Weighed;
use crate::note::Passed;
use ev_base::{Value, VatId};

/// The most lists in each other that pass.
const MOST_HEIGHT: u64 = 100;

impl Interior {
    /// What was weighed passes to a vat.
    #[tactic(auto, using(crate::proofs::Ends::ends, crate::proofs::Ends::shows_then), unfolding(crate::specs::Passing::pass_weighed, crate::specs::Acts::opened_acts))]
    fn pass_weighed(&mut self, to: VatId, weighed: Weighed) -> Result<Passed, Stop>
        ensures { Shows parcel result self.new (pass_weighed to weighed self.old) }
    {
        self.spend(weighed.weight)?;
        self.pack_end(MOST_HEIGHT, to, weighed.value)
    }

    /// A value passes to another vat: first its whole weight is spent, and then a word is drawn for each name of a third vat in it,
    /// from left to right, and its host is told. A list above the limits passes as broken `too heavy`.
    #[tactic(auto, using(crate::proofs::Packs::unweighed), unfolding(crate::specs::Passing::pass, crate::specs::Passing::pass_by))]
    pub fn pass(&mut self, to: VatId, value: Value) -> Result<Passed, Stop>
        ensures { Shows parcel result self.new (pass to value self.old) }
    {
        match self.weighed(value) {
            Ok(weighed) => self.pass_weighed(to, weighed),
            Err(stop) => Err(stop),
        }
    }

    /// Values pass to another vat, each by itself, from left to right.
    pub fn pass_all(&mut self, to: VatId, values: &[Value]) -> Result<Vec<Passed>, Stop>
        ensures { Shows (λ ps. all_parcels ps.items) result self.new (packs (pass to) values.now self.old) }
    {
        let mut parts = Vec::new(self.alloc);
        for value in values {
            match self.pass(to, *value) {
                Ok(part) => add(&mut parts, part)?,
                Err(stop) => return Err(stop),
            }
        }
        Ok(parts)
    }
}
