//! What waits for a tree while tokens are read: a stack of frames.

ghost use Rattle.std.specs.Prelude.{◌≡◌, [], ◌∷◌, ◌++◌, MatchOption, OnErr, OnOk};
ghost use Rattle.ev_parser.specs.Stacks.{lowered};
ghost use Rattle.ev_parser.specs.declared.draft.Waiting.TheVariants as waits;

use crate::draft::{Stand, Waiting};
use def_syntax::Tail;
use ev_parse_table::low_at;
use std::alloc::{AllocError, Global};
use std::marker::Model;

/// What a frame is. The node of one that has a node is kept apart, since most frames have none.
#[derive(Clone, Copy)]
enum Mark {
    Inside,
    After(Tail),
}

/// The frames. Contracts see the topmost one at the end.
///
/// An opening bracket makes one frame with a node and a dozen without, so these are small.
#[derive(Drop)]
pub struct Frames {
    marks: Vec<Mark>,
    stands: Vec<Stand>,
}

impl Model for Frames {
    ghost use Rattle.std.specs.Prelude.{◌≡◌, List, length};
    ghost use Rattle.ev_parser.specs.declared.draft.Waiting.{Waiting};
    ghost use Rattle.ev_parser.specs.Stacks.{framed, insides};

    ghost Value = { List Waiting };

    ghost view = { λ f. framed f.marks.items f.stands.items };

    ghost invariant = { λ f. insides f.marks.items ≡ length f.stands.items };
}

impl Frames {
    /// No frame.
    pub fn new(alloc: Global) -> Frames
        ensures { result ≡ [] }
    {
        Frames {
            marks: Vec::new(alloc),
            stands: Vec::new(alloc),
        }
    }

    /// A node waits for a tree, which is read first.
    pub fn push_inside(&mut self, stand: Stand) -> Result<(), AllocError>
        ensures ok { OnOk result (self.new ≡ self.old ++ waits.Inside stand ∷ []) }
        ensures err { OnErr result (self.new ≡ self.old) }
    {
        self.marks.push(Mark::Inside)?;
        match self.stands.push(stand) {
            Ok(_) => Ok(()),
            Err(error) => {
                let _ = self.marks.pop();
                Err(error.into())
            }
        }
    }

    /// A tail may follow the tree that is read first.
    pub fn push_after(&mut self, tail: Tail) -> Result<(), AllocError>
        ensures ok { OnOk result (self.new ≡ self.old ++ waits.After tail ∷ []) }
        ensures err { OnErr result (self.new ≡ self.old) }
    {
        self.marks.push(Mark::After(tail))?;
        Ok(())
    }

    /// Takes the topmost frame off.
    pub fn pop(&mut self) -> Option<Waiting>
        ensures { MatchOption result ((self.old ≡ []) × (self.new ≡ [])) (λ top. self.old ≡ self.new ++ top ∷ []) }
    {
        match self.marks.pop()? {
            Mark::After(tail) => Some(Waiting::After(tail)),
            Mark::Inside => {
                let stand = self.stands.pop()?;
                Some(Waiting::Inside(stand))
            }
        }
    }

    /// The least height of the whole tree where the topmost frame waits for a tree of this height, or 61 where it is more.
    pub fn lowered(&self, height: u8) -> u8
        ensures { result ≡ lowered self.now height }
    {
        let mut height = height;
        let mut left = self.stands.len();
        while left > 0 {
            left -= 1;
            let stand = &self.stands[left];
            height = low_at(stand.place, stand.tallest.max(height));
        }
        height
    }
}
