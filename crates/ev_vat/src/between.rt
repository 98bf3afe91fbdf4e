//! What a vat is given between its steps.

ghost use Rattle.std.specs.Prelude.{◌≡◌, ◌++◌, ◌∷◌, [], OnErr, OnOk};
ghost use Rattle.ev_vat.specs.Rooted.{readied};

use crate::vat::Vat;
use ev_arrive::host::Host;
use ev_base::Memory;
use ev_heap::Micro;
use ev_intro::Words;
use ev_pass::Post;
use std::mem;

impl Vat {
    /// What the vat holds, with the gifts that it hosts.
    pub fn host(&self) -> &Host
        ensures { result.now ≡ self.now.host }
    {
        &self.host
    }

    /// Keeps a text, which has the next number.
    pub fn keep_text(&mut self, text: &str) -> Result<(), Memory>
        ensures ok { OnOk result (self.new ≡ record self.old { host = record self.old.host { inside = record self.old.host.inside { heap = record self.old.host.inside.heap { texts = self.old.host.inside.heap.texts ++ text.now ∷ [] } } } }) }
        ensures err { OnErr result (self.new ≡ self.old) }
    {
        self.host.inside.heap.make_text(text)?;
        Ok(())
    }

    /// Readies the vat for its next step: what the last one told and put is forgotten, there is so much fuel, and words are drawn behind
    /// those that were drawn so far. The words that the vat had are given back for them.
    pub fn ready(&mut self, fuel: u32, words: &mut Words)
        ensures vat { self.new ≡ record self.old { host = record self.old.host { inside = readied fuel words.old self.old.host.inside } } }
        ensures words { words.new ≡ self.old.host.inside.words }
    {
        let inside = &mut self.host.inside;
        let alloc = inside.alloc;
        inside.micro = Micro::new(alloc, fuel);
        inside.post = Post::new(alloc);
        mem::swap(&mut inside.words, words);
    }
}
