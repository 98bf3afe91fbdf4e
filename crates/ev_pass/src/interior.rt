//! What a vat holds, and what the step at hand has left and done so far.

ghost use Rattle.std.specs.Prelude.{◌≡◌};
ghost use Rattle.ev_pass.specs.Acts.{Gives, send_out, spend, tell, to_tell};
ghost use Rattle.ev_pass.specs.Notes.{noted};

use crate::note::Note;
use crate::post::Post;
use ev_base::{Memory, PromId, TextId, VatId};
use ev_heap::{Happened, Heap, Micro};
use ev_intro::Words;
use ev_refs::Refs;
use std::alloc::Global;

/// Why something that a vat does came to no end.
#[derive(Clone, Copy)]
pub enum Stop {
    /// The fuel did not suffice.
    Fuel,
    /// The second of these draws gives the word of the first.
    Repeated(u64, u64),
    /// More settlings would stand one in another than names are known.
    Astray,
    /// A text or a list that the heap does not have was to be weighed, or a list that came in is above the limits.
    Missing,
    Memory,
}

impl From<Memory> for Stop {
    ghost use Rattle.std.specs.Prelude.{◌≡◌};
    ghost use Rattle.ev_pass.specs.declared.interior.Stop.TheVariants.{Memory as NoMemory};

    ghost from_gives = { λ _ e. e ≡ NoMemory };

    fn from(_error: Memory) -> Stop {
        Stop::Memory
    }
}

/// The inside of a vat: its heap and its references, the fuel that is left of the run and what happened in the step at hand, the
/// words that are drawn for gifts, and the notes put.
pub struct Interior {
    pub alloc: Global,
    pub heap: Heap,
    pub refs: Refs,
    pub micro: Micro,
    pub words: Words,
    pub post: Post,
    /// The text `too heavy`.
    pub too_heavy: TextId,
}

impl Drop for Interior {
    fn drop(self) {
        let Self {
            alloc: _,
            heap: _heap,
            refs: _refs,
            micro: _micro,
            words: _words,
            post: _post,
            too_heavy: _,
        } = self;
    }
}

impl Interior {
    /// Spends so many units of fuel, or none where they are above what is left.
    #[tactic(auto, unfolding(crate::specs::Acts::opened_acts))]
    pub fn spend(&mut self, units: u64) -> Result<(), Stop>
        ensures { Gives result self.new (spend units self.old) }
    {
        if self.micro.spend(units) {
            Ok(())
        } else {
            Err(Stop::Fuel)
        }
    }

    /// Tells what happened.
    #[tactic(auto, unfolding(crate::specs::Acts::opened_acts))]
    pub fn tell(&mut self, event: Happened) -> Result<(), Stop>
        ensures { Gives result self.new (tell event self.old) }
    {
        match self.micro.push(event) {
            Ok(()) => Ok(()),
            Err(Memory) => Err(Stop::Memory),
        }
    }

    /// Puts a note for that vat.
    #[tactic(auto, unfolding(crate::specs::Acts::opened_acts))]
    pub fn send_out(&mut self, to: VatId, note: Note) -> Result<(), Stop>
        ensures { Gives result self.new (send_out to (noted note) self.old) }
    {
        match self.post.put(to, note) {
            Ok(()) => Ok(()),
            Err(Memory) => Err(Stop::Memory),
        }
    }

    /// A vat is to be told of a name, once, if the name is known and did not settle.
    #[tactic(auto, unfolding(crate::specs::Acts::opened_acts))]
    pub fn to_tell(&mut self, vat: VatId, name: PromId) -> Result<(), Stop>
        ensures { Gives result self.new (to_tell vat name self.old) }
    {
        if name.0 < self.refs.count() {
            return match self.refs.tell(name, vat) {
                Ok(()) => Ok(()),
                Err(Memory) => Err(Stop::Memory),
            };
        }
        Ok(())
    }
}
