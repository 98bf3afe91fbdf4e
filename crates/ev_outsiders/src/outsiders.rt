//! The hostile vats of a run, in the place of a state.

ghost use Rattle.std.specs.Prelude.{◌≡◌, ℕ, OnErr, OnOk, IfOk, Some, option_map, replicate, slice_get, slice_set};
ghost use Rattle.def_hostile.specs.Outsiders.{Outsider as Theirs, counted, messages_in, nobody};
ghost use Rattle.def_machine.specs.State.{Note};
ghost use Rattle.def_machine.specs.Values.{Name};
ghost use Rattle.ev_outsiders.specs.Counting.{messages_of, outsider_of};

use crate::outsider::Outsider;
use ev_base::{Memory, VatId};
use std::alloc::Global;
use std::marker::Model;

/// By vat how many things its frames made; of an honest vat none.
pub struct Outsiders {
    counts: Vec<Outsider>,
}

impl Drop for Outsiders {
    fn drop(self) {
        let Self { counts: _counts } = self;
    }
}

impl Model for Outsiders {
    ghost use Rattle.std.specs.Prelude.{List, map};
    ghost use Rattle.def_hostile.specs.Outsiders.{Outsider};
    ghost use Rattle.ev_outsiders.specs.Counting.{outsider_of};

    ghost Value = { List Outsider };

    ghost view = { λ o. map outsider_of o.counts.items };
}

impl Outsiders {
    /// So many vats, of which no frame made anything.
    pub fn new(alloc: Global, vats: u8) -> Result<Outsiders, Memory>
        ensures { IfOk result (λ outsiders. outsiders ≡ replicate vats nobody) }
    {
        let mut counts = Vec::new(alloc);
        for _ in 0..vats {
            counts.push(Outsider::nobody())?;
        }
        Ok(Outsiders { counts })
    }

    /// How many things the frames of that vat made, if it is there.
    pub fn of(&self, vat: VatId) -> Option<Outsider>
        ensures { option_map outsider_of result ≡ slice_get self.now vat }
    {
        self.counts.get(vat.0 as usize).copied()
    }

    /// How many things the frames of the vat at a place made from now on, if it is there.
    fn set(&mut self, place: usize, outsider: Outsider)
        ensures { self.new ≡ slice_set self.old place (outsider_of outsider) }
    {
        if place < self.counts.len() {
            self.counts[place] = outsider;
        }
    }

    /// A frame of that vat made such things at new positions, in order, and brought a message, or none. A refusal changes nothing.
    pub fn count(&mut self, vat: VatId, kinds: &[bool], is_message: bool) -> Result<(), Memory>
        ensures counted { (o : Theirs) (n : Note Name) → slice_get self.old vat ≡ Some o → messages_in n ≡ messages_of is_message → OnOk result (self.new ≡ slice_set self.old vat (counted kinds.now n o)) }
        ensures err { OnErr result (self.new ≡ self.old) }
    {
        let Some(found) = self.of(vat) else {
            return Ok(());
        };
        let counted = found.counted(kinds, is_message)?;
        self.set(vat.0 as usize, counted);
        Ok(())
    }
}
