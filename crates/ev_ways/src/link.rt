//! A stream of bytes with frames in it, until it is cut.

ghost use Rattle.std.specs.Prelude.{◌≡◌, ◌⊎◌, ◌↔◌, ◌++◌, [], Ok, false, length, not, IfOk, IsNone, IsTrue, OnErr, OnOk};
ghost use Rattle.ev_ways.specs.Streams.{Fit, Holds, stream};
ghost use Rattle.ev_ways.specs.Way.{fresh, put, next, behind, severed};

use crate::cutting::{cut_frames, length_bytes, take_away};
use ev_base::{Memory, Seq};
use std::alloc::Global;
use std::collections::VecDeque;
use std::marker::Model;

/// The most bytes that `push` puts on a link at once.
const PIECE: usize = 512;

/// The bytes under way from one vat to another: of each frame its length, as eight bytes with the lowest first, and then its bytes. They come
/// in pieces of any size, and the frames are cut out of what has come. A link that was cut stays so, and carries nothing.
pub struct Link {
    /// The frames that have come whole.
    frames: VecDeque<Seq<u8>>,
    /// What has come of the next one, its length in front.
    part: Vec<u8>,
    is_cut: bool,
}

impl Drop for Link {
    fn drop(self) {
        let Self {
            frames: _frames,
            part: _part,
            is_cut: _,
        } = self;
    }
}

impl Model for Link {
    ghost use Rattle.ev_ways.specs.Streams.{IsSound};
    ghost use Rattle.ev_ways.specs.Way.{Way};

    ghost Value = { Way };

    ghost view = { λ l. record { frames = l.frames.items; part = l.part.items; is_cut = l.is_cut } };

    ghost invariant = { λ l. IsSound l.frames.items l.part.items };
}

impl Link {
    /// A link with nothing under way, which takes no memory.
    pub fn new(alloc: Global) -> Link
        ensures { result ≡ fresh }
    {
        Link {
            frames: VecDeque::new(alloc),
            part: Vec::new(alloc),
            is_cut: false,
        }
    }

    /// Puts bytes behind those under way, wherever frames begin and end in them. The answer is false exactly where the link is cut, and then
    /// the piece is lost. A refusal leaves the link as it was; a cut link never refuses.
    pub fn push_piece(&mut self, piece: &[u8]) -> Result<bool, Memory>
        ensures answer { IfOk result (λ kept. kept ≡ not self.old.is_cut) }
        ensures ok { OnOk result (self.old.is_cut ≡ false → Holds (stream self.old ++ piece.now) self.new) }
        ensures err { OnErr result (self.new ≡ self.old) }
        ensures lost { IsTrue self.old.is_cut → (result ≡ Ok false) × (self.new ≡ self.old) }
    {
        if self.is_cut {
            return Ok(false);
        }
        let came = self.part.len();
        let whole = self.frames.len();
        self.part.extend_from_slice(piece)?;
        let alloc = *self.frames.allocator();
        match cut_frames(alloc, &mut self.frames, self.part.as_slice()) {
            Ok(count) => {
                take_away(&mut self.part, count);
                Ok(true)
            }
            Err(refusal) => {
                self.frames.truncate(whole);
                self.part.truncate(came);
                Err(refusal)
            }
        }
    }

    /// How many bytes have come of the frame that has not come whole, those of its length with them.
    pub fn waiting(&self) -> usize
        ensures { result ≡ length self.now.part }
    {
        self.part.len()
    }

    /// Puts a frame behind those under way, in pieces of at most 512 bytes, where none has come in part. The answer is false exactly where
    /// the link is cut, and then the frame is lost. A refusal leaves the link as it was; a cut link never refuses.
    pub fn push(&mut self, frame: &[u8]) -> Result<bool, Memory>
        requires { (self.old.part ≡ []) ⊎ IsTrue self.old.is_cut }
        ensures answer { IfOk result (λ kept. kept ≡ not self.old.is_cut) }
        ensures ok { OnOk result (self.new ≡ put frame.now self.old) }
        ensures err { OnErr result (self.new ≡ self.old) }
        ensures lost { IsTrue self.old.is_cut → result ≡ Ok false }
    {
        if self.is_cut {
            return Ok(false);
        }
        if let Err(refusal) = self.push_pieces(frame) {
            self.part.clear();
            return Err(refusal);
        }
        Ok(true)
    }

    /// Puts a frame on a link that is not cut, where none has come in part. A refusal leaves the frames that have come, and perhaps a part
    /// of this one.
    fn push_pieces(&mut self, frame: &[u8]) -> Result<(), Memory>
        requires none { self.old.part ≡ [] }
        requires uncut { self.old.is_cut ≡ false }
        requires fit { Fit self.old.frames }
        ensures ok { OnOk result (self.new ≡ put frame.now self.old) }
        ensures err { OnErr result ((self.new.frames ≡ self.old.frames) × (self.new.is_cut ≡ false)) }
    {
        self.push_piece(&length_bytes(frame))?;
        let mut rest = frame;
        while !rest.is_empty() {
            let (piece, behind) = rest.split_at(rest.len().min(PIECE));
            self.push_piece(piece)?;
            rest = behind;
        }
        Ok(())
    }

    /// Takes the first frame under way, and none exactly where no whole one has come or the link is cut. It takes no memory.
    pub fn carry(&mut self) -> Option<Seq<u8>>
        ensures value { result ≡ next self.old }
        ensures after { self.new ≡ behind self.old }
        ensures none { IsNone result ↔ ((self.old.frames ≡ []) ⊎ IsTrue self.old.is_cut) }
    {
        if self.is_cut {
            return None;
        }
        self.frames.pop_front()
    }

    /// Cuts the link: all that is under way is lost, and each later frame. It takes no memory.
    pub fn cut(&mut self)
        ensures { self.new ≡ severed }
    {
        self.frames.clear();
        self.part.clear();
        self.is_cut = true;
    }

    /// Whether the link is cut.
    pub fn is_cut(&self) -> bool
        ensures { result ≡ self.now.is_cut }
    {
        self.is_cut
    }

    /// How many whole frames are under way.
    pub fn len(&self) -> usize
        ensures { result ≡ length self.now.frames }
    {
        self.frames.len()
    }

    /// Whether no whole frame is under way.
    pub fn is_empty(&self) -> bool
        ensures { IsTrue result ↔ (self.now.frames ≡ []) }
    {
        self.frames.is_empty()
    }
}
