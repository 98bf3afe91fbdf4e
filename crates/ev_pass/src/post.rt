//! The notes that are put in a step.

ghost use Rattle.std.specs.Prelude.{◌≡◌, ◌++◌, ◌∷◌, [], OnErr, OnOk, map};
ghost use Rattle.ev_pass.specs.Notes.{noted, sent};

use crate::note::Note;
use ev_base::{Memory, VatId};
use std::alloc::Global;
use std::marker::Model;

/// A note, and the vat that it is for.
pub struct Put {
    pub to: VatId,
    pub note: Note,
}

impl Drop for Put {
    fn drop(self) {
        let Self { to: _, note: _note } = self;
    }
}

/// The notes that are put in a step, in order.
#[derive(Drop)]
pub struct Post {
    puts: Vec<Put>,
}

impl Model for Post {
    ghost use Rattle.std.specs.Prelude.{List, map};
    ghost use Rattle.ev_base.specs.contracts.values.Value as v;
    ghost use Rattle.std.specs.Coded.{codes};
    ghost use Rattle.ev_pass.specs.Codes.{parcel_code, parcels_code};
    ghost use Rattle.ev_pass.specs.Notes.{Sent, sent};

    ghost Value = { List Sent };

    ghost coded = { Prim.hlevel (codes, parcel_code, parcels_code, v.the_row.coded) };

    ghost view = { λ p. map sent p.puts.items };
}

impl Post {
    /// No notes.
    pub fn new(alloc: Global) -> Post
        ensures { result ≡ [] }
    {
        Post {
            puts: Vec::new(alloc),
        }
    }

    /// A note for that vat, behind the others. A refusal changes nothing.
    pub fn put(&mut self, to: VatId, note: Note) -> Result<(), Memory>
        ensures ok { OnOk result (self.new ≡ self.old ++ record { to = to; note = noted note } ∷ []) }
        ensures err { OnErr result (self.new ≡ self.old) }
    {
        self.puts.push(Put { to, note })?;
        Ok(())
    }

    /// The notes, lent in order.
    pub fn puts(&self) -> &[Put]
        ensures { map sent result.now ≡ self.now }
    {
        self.puts.as_slice()
    }
}
