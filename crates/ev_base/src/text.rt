//! A text that contracts see as the list of its bytes.

ghost use Rattle.std.specs.Prelude.{◌≡◌, ◌+◌, [], ◌∷◌, ◌++◌, ◌↔◌, List, ℕ, length, string_bytes, IfOk, IsTrue, OnErr, OnOk};

use crate::memory::Memory;
use std::alloc::Global;
use std::marker::Model;

/// A text in UTF-8. It is made of a `String` and gives it back without taking memory.
pub struct Str {
    text: String,
}

impl Drop for Str {
    fn drop(self) {
        let Self { text: _text } = self;
    }
}

impl Model for Str {
    ghost Value = { List ℕ };

    ghost view = { λ s. string_bytes s.text };
}

impl Str {
    /// The empty text, which takes no memory.
    pub fn new(alloc: Global) -> Str
        ensures { result ≡ [] }
    {
        Str {
            text: String::new(alloc),
        }
    }

    /// The text of this string.
    pub fn of(text: String) -> Str
        ensures { result ≡ string_bytes text }
    {
        Str { text }
    }

    /// A copy of a text.
    pub fn copy_of(alloc: Global, text: &str) -> Result<Str, Memory>
        ensures { IfOk result (λ copy. copy ≡ text.now) }
    {
        Ok(Str {
            text: String::from_str(alloc, text)?,
        })
    }

    /// The text, lent.
    pub fn as_str(&self) -> &str
        ensures { result.now ≡ self.now }
    {
        self.text.as_str()
    }

    /// How many bytes there are.
    pub fn len(&self) -> usize
        ensures { result ≡ length self.now }
    {
        self.text.len()
    }

    /// Whether there are none.
    pub fn is_empty(&self) -> bool
        ensures { IsTrue result ↔ (self.now ≡ []) }
    {
        self.text.is_empty()
    }

    /// Appends a text at the end, or refuses and leaves the text as it was.
    pub fn push(&mut self, more: &str) -> Result<(), Memory>
        ensures ok { OnOk result (self.new ≡ self.old ++ more.now) }
        ensures err { OnErr result (self.new ≡ self.old) }
    {
        self.text.push_str(more)?;
        Ok(())
    }
}
