//! The words under which gifts are provided.

ghost use Rattle.std.specs.Prelude.{◌≡◌};
ghost use Rattle.ev_pass.specs.Acts.{Gives, draw};

use crate::interior::{Interior, Stop};
use ev_base::VatId;
use ev_intro::DrawFault;

/// What tells a gift from the others at its host: who provides it, and the word that was drawn for it.
#[derive(Clone, Copy, PartialEq, Eq, Hash)]
pub struct Swiss {
    pub provider: VatId,
    pub word: u128,
}

impl Interior {
    /// Draws the next word. One that was drawn before stops the run.
    #[tactic(auto, using(crate::proofs::Draws::new_word, crate::proofs::Draws::old_word), unfolding(crate::specs::Acts::draw, crate::specs::Acts::draws))]
    pub fn draw(&mut self) -> Result<u128, Stop>
        ensures { Gives result self.new (draw self.old) }
    {
        match self.words.draw() {
            Ok(word) => Ok(word),
            Err(DrawFault::WordRepeated(first, second)) => Err(Stop::Repeated(first, second)),
            Err(DrawFault::Memory) => Err(Stop::Memory),
        }
    }
}
