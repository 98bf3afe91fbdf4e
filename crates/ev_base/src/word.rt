//! Nouns and verbs.

ghost use Rattle.std.specs.Prelude.{◌≡◌, List, ℕ, IfOk, codes, length};
ghost use Rattle.std.specs.Str.{bytes_eq};
ghost use Rattle.ev_base.specs.Keys.{key_from, next_key, spelled};

use crate::shared_text::Text;
use crate::{Memory, Str};
use std::alloc::Global;
use std::marker::Model;

/// A noun or a verb. It is shared and not copied, and its key tells it from most others. Contracts see the list of its bytes.
pub struct Word {
    key: u32,
    text: Option<Text>,
}

impl Drop for Word {
    fn drop(self) {
        let Self {
            key: _,
            text: _text,
        } = self;
    }
}

impl Model for Word {
    ghost Value = { List ℕ };

    ghost view = { λ w. spelled w.text };

    ghost invariant = { λ w. w.key ≡ key_from 0 (spelled w.text) };
}

/// The key of a text with one more byte.
fn next_key(key: u32, byte: u8) -> u32
    ensures { result ≡ next_key key byte }
{
    ((u64::from(key) * 31 + u64::from(byte)) % 4294967291) as u32
}

/// The key of a text.
#[tactic(auto, unfolding(crate::specs::Keys::key_from))]
fn key_of(text: &[u8]) -> u32
    ensures { result ≡ key_from 0 text.now }
{
    let mut key = 0;
    for byte in text {
        key = next_key(key, *byte);
    }
    key
}

impl Word {
    /// The word of a text.
    pub fn copy_of(alloc: Global, text: &str) -> Result<Word, Memory>
        ensures { IfOk result (λ copy. copy ≡ text.now) }
    {
        let key = key_of(text.as_bytes());
        let text = Text::copy_of(alloc, text)?;
        Ok(Word {
            key,
            text: Some(text),
        })
    }

    /// The word of a text that is handed over.
    pub fn of(alloc: Global, text: Str) -> Result<Word, Memory>
        ensures { IfOk result (λ word. word ≡ text) }
    {
        let key = key_of(text.as_str().as_bytes());
        let text = Text::of(alloc, text)?;
        Ok(Word {
            key,
            text: Some(text),
        })
    }

    /// The verb that data and primitives call, which takes no memory.
    pub fn run() -> Word
        ensures { result ≡ codes "run" }
    {
        Word {
            key: key_of("run".as_bytes()),
            text: None,
        }
    }

    /// The same word, for one more holder.
    pub fn share(&self) -> Result<Word, Memory>
        ensures { IfOk result (λ shared. shared ≡ self.now) }
    {
        let text = match &self.text {
            None => None,
            Some(text) => Some(text.share()?),
        };
        Ok(Word {
            key: self.key,
            text,
        })
    }

    /// Whether it is that word.
    #[tactic(auto, using(crate::proofs::Kept::other_key))]
    #[inline(always)]
    pub fn is(&self, other: &Word) -> bool
        ensures { result ≡ bytes_eq self.now other.now }
    {
        self.key == other.key && self.as_str() == other.as_str()
    }

    /// The key, by which a table finds it.
    pub fn key(&self) -> u32
        ensures { result ≡ key_from 0 self.now }
    {
        self.key
    }

    /// The text, lent.
    #[inline(always)]
    pub fn as_str(&self) -> &str
        ensures { result.now ≡ self.now }
    {
        match &self.text {
            None => "run",
            Some(text) => text.as_str(),
        }
    }

    /// How many bytes there are.
    pub fn len(&self) -> usize
        ensures { result ≡ length self.now }
    {
        self.as_str().len()
    }
}
