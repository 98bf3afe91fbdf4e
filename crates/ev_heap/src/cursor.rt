//! What happened, read one after the other.

ghost use Rattle.std.specs.Prelude.{◌≡◌, ◌∷◌, ◌<◌, [], length, IfNone, IfSome};
ghost use Rattle.ev_heap.specs.Told.{AllFit, Fits, rare_at, read, told};
ghost use Rattle.ev_heap.specs.Verbs.{text_at};

use crate::Happened;
use crate::lines::Line;
use crate::packed::Held;
use ev_base::Word;
use std::marker::Model;

/// A line, and its values.
#[derive(Drop)]
pub struct Entry<'a> {
    pub line: Line,
    pub values: Held<'a>,
}

/// What is left to read of what happened.
#[derive(Drop)]
pub struct Cursor<'a> {
    lines: &'a [Line],
    values: Held<'a>,
    verbs: &'a [Word],
    rare: &'a [Happened],
}

impl<'a> Model for Cursor<'a> {
    ghost use Rattle.ev_heap.specs.Told.{AllFit, Reading, read};

    ghost Value = { Reading };

    ghost view = { λ c. record { verbs = c.verbs.now; rare = c.rare.now; left = read c.verbs.now c.rare.now c.lines.now c.values } };

    ghost invariant = { λ c. AllFit c.verbs.now c.rare.now c.lines.now };
}

impl<'a> Cursor<'a> {
    /// These lines, with their values, of which these are the verbs and the rare ones.
    pub fn of(
        lines: &'a [Line],
        values: Held<'a>,
        verbs: &'a [Word],
        rare: &'a [Happened],
    ) -> Cursor<'a>
        requires { AllFit verbs.now rare.now lines.now }
        ensures { result ≡ record { verbs = verbs.now; rare = rare.now; left = read verbs.now rare.now lines.now values.entry } }
    {
        Cursor {
            lines,
            values,
            verbs,
            rare,
        }
    }

    /// The next line, with its values, or none where nothing is left.
    #[inline(always)]
    pub fn next(&mut self) -> Option<Entry<'a>>
        ensures verbs { self.new.verbs ≡ self.old.verbs }
        ensures rare { self.new.rare ≡ self.old.rare }
        ensures end { IfNone result (self.old.left ≡ []) }
        ensures next { IfSome result (λ entry. self.old.left ≡ told self.old.verbs self.old.rare entry.line entry.values ∷ self.new.left) }
        ensures fits { IfSome result (λ entry. Fits self.old.verbs self.old.rare entry.line) }
    {
        match self.lines.split_first() {
            None => None,
            Some((line, lines)) => {
                let (values, left) = self.values.split(line.width());
                self.lines = lines;
                self.values = left;
                Some(Entry {
                    line: *line,
                    values,
                })
            }
        }
    }

    /// The verb at a place.
    #[inline(always)]
    pub fn verb(&self, place: u32) -> &'a Word
        requires { place < length self.now.verbs }
        ensures { result.now ≡ text_at self.now.verbs place }
    {
        &self.verbs[place as usize]
    }

    /// The rare one at a place.
    #[inline(always)]
    pub fn rare(&self, place: u32) -> &'a Happened
        requires { place < length self.now.rare }
        ensures { result.now ≡ rare_at self.now.rare place }
    {
        &self.rare[place as usize]
    }
}
