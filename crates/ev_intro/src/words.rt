//! Words that are drawn under a key, none of them twice.

ghost use Rattle.std.specs.Prelude.{◌≡◌, ◌+◌, ◌*◌, ◌^◌, ◌≤◌, ◌<◌, IfOk, IfErr, OnErr};
ghost use Rattle.rand_chacha.specs.ChaCha.{ChaCha};
ghost use Rattle.ev_intro.specs.Word.{number_at, place, word, IsNew, IsDrawFault};

use indexmap::IndexMap;
use rand_chacha::ChaCha20Rng;
use rand_core::SeedableRng;
use rand_core::utils::NextWord;
use std::alloc::Global;
use std::error::Error;
use std::fmt;
use std::marker::Model;

/// Why no word was drawn.
#[derive(Clone, Copy, Debug)]
pub enum DrawFault {
    /// The second of these draws gives what the first gave.
    WordRepeated(u64, u64),
    Memory,
}

impl fmt::Display for DrawFault {
    ghost use Rattle.std.specs.Prelude.{Some};
    ghost use Rattle.ev_intro.specs.Message.{fault_text};

    ghost output = { λ fault. Some (fault_text fault) };

    fn fmt<W: fmt::Write>(&self, f: &mut fmt::Formatter<W>) -> fmt::Result {
        match *self {
            DrawFault::WordRepeated(first, second) => {
                write!(f, "draws {first} and {second} give the same word")
            }
            DrawFault::Memory => write!(f, "out of memory"),
        }
    }
}

impl Error for DrawFault {}

/// Words of 128 bits, drawn one after the other out of the key stream of ChaCha20 on stream 0: draw `i` is its words
/// `4i` to `4i + 3`, the lowest first.
pub struct Words {
    key: [u8; 32],
    stream: ChaCha20Rng,
    drawn: IndexMap<u128, u64>,
}

impl Drop for Words {
    fn drop(self) {
        let Self {
            key: _,
            stream: _stream,
            drawn: _drawn,
        } = self;
    }
}

impl Model for Words {
    ghost use Rattle.std.specs.Prelude.{◌≡◌, ◌*◌, length};
    ghost use Rattle.rand_chacha.specs.ChaCha.{key_of};
    ghost use Rattle.ev_intro.specs.Word.{Drawn, draws};

    ghost Value = { Drawn };

    ghost view = { λ w. record { key = w.key; count = length w.drawn.entries } };

    ghost invariant = { λ w. (w.stream ≡ record { key = key_of w.key; stream = 0; word_pos = 4 * length w.drawn.entries })
        × (w.drawn.entries ≡ draws w.key (length w.drawn.entries)) };
}

/// The next four words of a stream as one number.
#[tactic(auto, unfolding(crate::specs::Word::number_at))]
fn next_number(stream: &mut ChaCha20Rng) -> u128
    requires place { stream.old.word_pos + 4 < 2 ^ 68 }
    requires zero { stream.old.stream ≡ 0 }
    ensures value { result ≡ number_at stream.old.key stream.old.word_pos }
    ensures after { stream.new ≡ record stream.old { word_pos = stream.old.word_pos + 4 } }
{
    let first = stream.next_word();
    let second = stream.next_word();
    let third = stream.next_word();
    let fourth = stream.next_word();
    u128::from(first)
        + 0x1_0000_0000 * u128::from(second)
        + 0x1_0000_0000_0000_0000 * u128::from(third)
        + 0x1_0000_0000_0000_0000_0000_0000 * u128::from(fourth)
}

impl Words {
    /// The words under a key. It takes no memory.
    pub fn new(alloc: Global, key: &[u8; 32]) -> Words
        ensures { result ≡ record { key = key.now; count = 0 } }
    {
        Words {
            key: *key,
            stream: ChaCha20Rng::from_seed(*key),
            drawn: IndexMap::new(alloc),
        }
    }

    /// How many words were drawn.
    pub fn count(&self) -> u64
        ensures { result ≡ self.now.count }
    {
        self.drawn.len() as u64
    }

    /// Which draw gave that word, or how many were made where none gave it.
    pub fn place(&self, word: u128) -> u64
        ensures { result ≡ place word self.now }
    {
        match self.drawn.get(&word).copied() {
            Some(place) => place,
            None => self.drawn.len() as u64,
        }
    }

    /// The word that the next draw gives. It stays to be drawn.
    pub fn next(&self) -> u128
        ensures { result ≡ word self.now.key self.now.count }
    {
        let mut stream = ChaCha20Rng::from_seed(self.key);
        stream.set_word_pos(4 * u128::from(self.count()));
        next_number(&mut stream)
    }

    /// Draws the next word. A refusal leaves the words as they were.
    pub fn draw(&mut self) -> Result<u128, DrawFault>
        ensures value { IfOk result (λ drawn. drawn ≡ word self.old.key self.old.count) }
        ensures ok { IfOk result (λ _. self.new ≡ record self.old { count = self.old.count + 1 }) }
        // A word that was drawn before is never drawn again.
        ensures differs { IfOk result (λ _. IsNew self.old) }
        ensures fault { IfErr result (λ e. IsDrawFault self.old e) }
        ensures err { OnErr result (self.new ≡ self.old) }
    {
        let count = self.drawn.len() as u64;
        let number = next_number(&mut self.stream);
        match self.drawn.get(&number).copied() {
            Some(first) => {
                self.stream.set_word_pos(4 * u128::from(count));
                Err(DrawFault::WordRepeated(first, count))
            }
            None => match self.drawn.insert(number, count) {
                Ok(_) => Ok(number),
                Err(_) => {
                    self.stream.set_word_pos(4 * u128::from(count));
                    Err(DrawFault::Memory)
                }
            },
        }
    }
}
