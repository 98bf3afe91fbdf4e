//! A vat whose lines are told.

ghost use Rattle.std.specs.Prelude.{◌≡◌, false, get_or};

use crate::table::Table;
use ev_base::VatId;
use ev_heap::Heap;
use std::alloc::Global;
use std::marker::Model;

/// A vat whose lines are told: its heap, the names that its numbers stand for, and its links.
#[derive(Drop)]
pub struct Teller<'a> {
    pub alloc: Global,
    pub heap: &'a Heap,
    pub table: &'a Table,
    /// Of each vat by its number whether the link to it is cut. The link to a vat that is not there is not.
    pub cut: &'a [bool],
}

impl<'a> Model for Teller<'a> {
    ghost use Rattle.ev_step_lines.specs.Lines.{Telling};

    ghost Value = { Telling };

    ghost view = { λ t. record { naming = t.table.now; texts = t.heap.now.texts; cut = t.cut.now } };
}

impl<'a> Teller<'a> {
    /// The number of the vat.
    pub fn vat(&self) -> VatId
        ensures { result ≡ self.now.naming.vat }
    {
        self.table.vat()
    }

    /// Whether the link to that vat is cut.
    pub fn is_cut(&self, vat: VatId) -> bool
        ensures { result ≡ get_or self.now.cut vat false }
    {
        match self.cut.get(vat.0 as usize) {
            Some(cut) => *cut,
            None => false,
        }
    }
}
