//! A step of a vat is told, and what it put goes out.

ghost use Rattle.std.specs.Prelude.{◌≡◌, ℕ, List, OnOk};
ghost use Rattle.def_run.specs.Numbers.{Brought, Vats, left_by};
ghost use Rattle.def_run.specs.Vats.{Member};
ghost use Rattle.def_machine.specs.State as machine;
ghost use Rattle.def_machine.specs.Values.{Local};
ghost use Rattle.def_run.specs.World.{Event};
ghost use Rattle.def_run.specs.World.{Script as TheirScript};
ghost use Rattle.ev_world.specs.Midway.{IsMidway};
ghost use Rattle.ev_world.specs.Standing.{AreReady, IsWorld};

use crate::exporting::tell_exports;
use crate::pushing::push_out;
use crate::world::World;
use ev_base::{Memory, Msg, VatId};
use ev_resident::{Sending, Told};
use std::alloc::Global;

impl World {
    /// What a vat did in a step is told, what it exported comes to stand in the tables of its peers, and its frames go out on its ways. It
    /// had exported so much to each before. A note brought that message, if one, and told those numbers.
    pub(crate) fn finish(
        &mut self,
        alloc: Global,
        vat: VatId,
        before: &[u64],
        carried: Option<Msg>,
        told: Told,
        sendings: Vec<Sending>,
    ) -> Result<(), Memory>
        ensures finished { (S : TheirScript) (w : Vats) (m : Member) (head : List Event) (b : Brought) (s : machine.Vat Local)
            → IsMidway S w vat m head b s before.now sendings.items carried told self.old → OnOk result (IsWorld S (left_by w vat head m b s) self.new) }
        ensures ready { AreReady self.old.residents.items → OnOk result (AreReady self.new.residents.items) }
        ensures wire { self.new.wire ≡ self.old.wire }
    {
        let cut = self.ways.cuts_of(alloc, vat)?;
        let Some(resident) = self.residents.get_mut(vat.0 as usize) else {
            return Err(Memory);
        };
        let outgoing = resident.finish(
            alloc,
            cut.as_slice(),
            carried,
            told,
            sendings,
            &mut self.history,
        )?;
        self.fuel = resident.rest(&mut self.words);
        tell_exports(&mut self.residents, alloc, vat, before)?;
        push_out(&mut self.ways, vat, outgoing)?;
        Ok(())
    }
}
