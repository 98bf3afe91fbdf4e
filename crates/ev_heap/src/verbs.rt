//! The verbs of lines, each kept once.

ghost use Rattle.std.specs.Prelude.{◌≡◌, [], length, IfOk, IfSome, true};
ghost use Rattle.ev_heap.specs.Verbs.{Begins, IsTextAt, text_at};

use ev_base::{Memory, Word};
use std::alloc::Global;
use std::marker::Model;

/// How many rows tell where a verb may stand.
const ROWS: usize = 64;

/// How many rows a verb is looked for in.
const TRIES: usize = 8;

/// The row of no verb.
const NONE: u32 = 4294967295;

/// Verbs, in the order in which they came. A row tells the number of a verb of which the key leads there; where rows want, a verb may stand more than once.
pub struct Verbs {
    words: Vec<Word>,
    rows: Vec<u32>,
}

impl Drop for Verbs {
    fn drop(self) {
        let Self {
            words: _words,
            rows: _rows,
        } = self;
    }
}

impl Model for Verbs {
    ghost use Rattle.std.specs.Prelude.{List, ℕ};

    ghost Value = { List (List ℕ) };

    ghost view = { λ v. v.words.items };
}

impl Verbs {
    /// None.
    pub fn new(alloc: Global) -> Verbs
        ensures { result ≡ [] }
    {
        Verbs {
            words: Vec::new(alloc),
            rows: Vec::new(alloc),
        }
    }

    /// How many there are.
    pub fn len(&self) -> usize
        ensures { result ≡ length self.now }
    {
        self.words.len()
    }

    /// Lets go of all.
    pub fn clear(&mut self)
        ensures { self.new ≡ [] }
    {
        self.words.clear();
        self.rows.clear();
    }

    /// The verbs, lent.
    pub fn as_slice(&self) -> &[Word]
        ensures { result.now ≡ self.now }
    {
        self.words.as_slice()
    }

    /// Whether the verb stands there.
    #[inline(always)]
    fn stands_at(&self, number: u32, verb: &Word) -> Option<bool>
        ensures { IfSome result (λ it. it ≡ true → IsTextAt self.now number verb.now) }
    {
        let word = self.words.get(number as usize)?;
        Some(word.is(verb))
    }

    /// The number of a verb, or the row that is to lead to it.
    #[inline(always)]
    fn find(&self, verb: &Word) -> Result<u32, usize>
        ensures { IfOk result (λ number. IsTextAt self.now number verb.now) }
    {
        let first = verb.key() as usize % ROWS;
        for step in 0..TRIES {
            let row = (first + step) % ROWS;
            let Some(number) = self.rows.get(row) else {
                return Err(row);
            };
            match self.stands_at(*number, verb) {
                None => return Err(row),
                Some(true) => return Ok(*number),
                Some(false) => {}
            }
        }
        Err(first)
    }

    /// A verb behind the others, to which a row leads.
    fn add(&mut self, row: usize, verb: &Word) -> Result<u32, Memory>
        ensures known { IfOk result (λ number. IsTextAt self.new number verb.now) }
        ensures more { Begins self.old self.new }
    {
        let Ok(number) = u32::try_from(self.words.len()) else {
            return Err(Memory);
        };
        if self.rows.is_empty() {
            self.rows.extend_from_slice(&[NONE; ROWS])?;
        }
        if row < self.rows.len() {
            self.rows[row] = number;
        }
        let word = verb.share()?;
        self.words.push(word)?;
        Ok(number)
    }

    /// The number of a verb, which comes to stand among the others if it does not.
    #[inline(always)]
    pub fn number_of(&mut self, verb: &Word) -> Result<u32, Memory>
        ensures known { IfOk result (λ number. IsTextAt self.new number verb.now) }
        ensures more { Begins self.old self.new }
    {
        match self.find(verb) {
            Ok(number) => Ok(number),
            Err(row) => self.add(row, verb),
        }
    }
}
