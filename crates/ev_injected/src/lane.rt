//! The injected frames under way from one vat to another.

ghost use Rattle.std.specs.Prelude.{◌≡◌, OnErr, OnOk};
ghost use Rattle.def_hostile.specs.Hostile.{is_raw};
ghost use Rattle.ev_injected.specs.Lanes.{fresh, first, put, rest};

use ev_base::{Memory, Seq, VatId};
use std::alloc::Global;
use std::collections::VecDeque;
use std::marker::Model;
use std::mem;

/// The injected frames under way from one vat to another, the first in front.
#[derive(Drop)]
pub(crate) struct Lane {
    from: VatId,
    to: VatId,
    frames: VecDeque<Seq<u8>>,
}

impl Model for Lane {
    ghost use Rattle.def_hostile.specs.Hostile.{Raw};

    ghost Value = { Raw };

    ghost view = { λ l. record { from = l.from; to = l.to; frames = l.frames.items } };
}

impl Lane {
    /// No frames, from one vat to another. It takes no memory.
    pub(crate) fn new(alloc: Global, from: VatId, to: VatId) -> Lane
        ensures { result ≡ fresh from to }
    {
        Lane {
            from,
            to,
            frames: VecDeque::new(alloc),
        }
    }

    /// Whether the frames go from that vat to that one.
    #[tactic(auto, unfolding(def_hostile::specs::Hostile::is_raw))]
    pub(crate) fn is_between(&self, from: VatId, to: VatId) -> bool
        ensures { result ≡ is_raw from to self.now }
    {
        self.from.0 == from.0 && self.to.0 == to.0
    }

    /// Puts a frame behind the others. A refusal leaves them as they were.
    pub(crate) fn push(&mut self, frame: Seq<u8>) -> Result<(), Memory>
        ensures ok { OnOk result (self.new ≡ put frame self.old) }
        ensures err { OnErr result (self.new ≡ self.old) }
    {
        self.frames.push_back(frame)?;
        Ok(())
    }

    /// Takes the first of the frames, where there is one. It takes no memory.
    pub(crate) fn carry(&mut self) -> Option<Seq<u8>>
        ensures value { result ≡ first self.old }
        ensures after { self.new ≡ rest self.old }
    {
        self.frames.pop_front()
    }

    /// Takes all frames. It takes no memory.
    pub(crate) fn take_all(&mut self, alloc: Global) -> VecDeque<Seq<u8>>
        ensures value { result.items ≡ self.old.frames }
        ensures after { self.new ≡ fresh self.old.from self.old.to }
    {
        mem::replace(&mut self.frames, VecDeque::new(alloc))
    }
}
