//! The injected frames under way between all vats of a run.

ghost use Rattle.std.specs.Prelude.{◌≡◌, ◌==◌, ◌++◌, ◌∷◌, [], List, None, IfNone, IfOk, IfSome, OnErr, OnOk, slice_get};
ghost use Rattle.def_hostile.specs.Hostile.{frames_at, raws_cut, with_frames};
ghost use Rattle.ev_injected.specs.Lanes.{IsTaken, first_in, frames_in, fresh_all, fresh_to, place, put, queued, rest, set_found, unless_same};

use crate::lane::Lane;
use ev_base::{Memory, Seq, VatId};
use ev_event::History;
use std::alloc::Global;
use std::collections::VecDeque;
use std::marker::Model;

/// The injected frames under way, a queue for each ordered pair of vats. A frame is moved in and out, and never copied.
///
/// A script has at most 16 vats, so a queue is looked for among at most 240.
#[derive(Drop)]
pub struct Injected {
    lanes: Vec<Lane>,
}

impl Model for Injected {
    ghost use Rattle.std.specs.Prelude.{List};
    ghost use Rattle.def_hostile.specs.Hostile.{Raw};

    ghost Value = { List Raw };

    ghost view = { λ i. i.lanes.items };
}

/// Adds an empty queue from one vat to another, which is not the same.
fn add_lane(alloc: Global, lanes: &mut Vec<Lane>, from: VatId, to: VatId) -> Result<(), Memory>
    ensures { OnOk result (lanes.new.items ≡ unless_same (from == to) from to lanes.old.items) }
{
    if from.0 == to.0 {
        return Ok(());
    }
    lanes.push(Lane::new(alloc, from, to))?;
    Ok(())
}

/// Adds an empty queue from that vat to each of so many but itself.
fn add_lanes(alloc: Global, lanes: &mut Vec<Lane>, from: VatId, vats: u8) -> Result<(), Memory>
    ensures { OnOk result (lanes.new.items ≡ lanes.old.items ++ fresh_to from vats) }
{
    for to in 0..vats {
        add_lane(alloc, lanes, from, VatId(to))?;
    }
    Ok(())
}

impl Injected {
    /// No frames between so many vats.
    pub fn new(alloc: Global, vats: u8) -> Result<Injected, Memory>
        ensures { IfOk result (λ injected. injected ≡ fresh_all vats) }
    {
        let mut lanes = Vec::new(alloc);
        for from in 0..vats {
            add_lanes(alloc, &mut lanes, VatId(from), vats)?;
        }
        Ok(Injected { lanes })
    }

    /// Where the queue from one vat to another stands.
    fn find(&self, from: VatId, to: VatId) -> Option<usize>
        ensures { result ≡ place from to self.now }
    {
        let mut index = 0usize;
        for lane in &self.lanes {
            if lane.is_between(from, to) {
                return Some(index);
            }
            index += 1;
        }
        None
    }

    /// Puts a frame behind those of the queue at a place. A refusal leaves all as it was.
    #[tactic(auto, unfolding(crate::specs::Lanes::set_found))]
    fn push_at(&mut self, index: usize, frame: Seq<u8>) -> Result<(), Memory>
        ensures ok { OnOk result (self.new ≡ set_found (put frame) index self.old (slice_get self.old index)) }
        ensures err { OnErr result (self.new ≡ self.old) }
    {
        match self.lanes.get_mut(index) {
            None => Ok(()),
            Some(lane) => lane.push(frame),
        }
    }

    /// Takes the first frame of the queue at a place.
    #[tactic(auto, unfolding(crate::specs::Lanes::set_found, crate::specs::Lanes::first_in))]
    fn carry_at(&mut self, index: usize) -> Option<Seq<u8>>
        ensures value { result ≡ first_in (slice_get self.old index) }
        ensures after { self.new ≡ set_found rest index self.old (slice_get self.old index) }
    {
        match self.lanes.get_mut(index) {
            None => None,
            Some(lane) => lane.carry(),
        }
    }

    /// Takes all frames of the queue at a place.
    #[tactic(auto, unfolding(crate::specs::Lanes::set_found, crate::specs::Lanes::frames_in))]
    fn take_at(&mut self, alloc: Global, index: usize) -> VecDeque<Seq<u8>>
        ensures value { result.items ≡ frames_in (slice_get self.old index) }
        ensures after { self.new ≡ set_found (queued (λ fs. [])) index self.old (slice_get self.old index) }
    {
        match self.lanes.get_mut(index) {
            None => VecDeque::new(alloc),
            Some(lane) => lane.take_all(alloc),
        }
    }

    /// Puts a frame behind those from one vat to another. A vat that is not there, or the same vat twice, has no queue, and the frame is
    /// lost. A refusal leaves all as it was.
    #[tactic(auto, using(crate::proofs::Changes::with_found, crate::proofs::Changes::with_none))]
    pub fn push(&mut self, from: VatId, to: VatId, frame: Seq<u8>) -> Result<(), Memory>
        ensures ok { OnOk result (self.new ≡ with_frames (λ fs. fs ++ frame ∷ []) from to self.old) }
        ensures err { OnErr result (self.new ≡ self.old) }
    {
        match self.find(from, to) {
            None => Ok(()),
            Some(index) => self.push_at(index, frame),
        }
    }

    /// Takes the first frame from one vat to another, and none exactly where there is none. It takes no memory.
    #[tactic(auto, using(crate::proofs::Changes::taken_at, crate::proofs::Changes::none_at, crate::proofs::Changes::absent))]
    pub fn carry(&mut self, from: VatId, to: VatId) -> Option<Seq<u8>>
        ensures taken { IfSome result (λ frame. IsTaken from to frame self.old self.new) }
        ensures none { IfNone result ((frames_at from to self.old ≡ []) × (self.new ≡ self.old)) }
    {
        match self.find(from, to) {
            None => None,
            Some(index) => self.carry_at(index),
        }
    }

    /// Takes all frames from one vat to another, in order. It takes no memory.
    #[tactic(auto, using(crate::proofs::Changes::with_found, crate::proofs::Changes::frames_found, crate::proofs::Changes::absent))]
    pub fn take_all(&mut self, alloc: Global, from: VatId, to: VatId) -> VecDeque<Seq<u8>>
        ensures value { result.items ≡ frames_at from to self.old }
        ensures after { self.new ≡ with_frames (λ fs. []) from to self.old }
    {
        match self.find(from, to) {
            None => VecDeque::new(alloc),
            Some(index) => self.take_at(alloc, index),
        }
    }

    /// The link of two vats is cut: the frames of both directions are lost, and nothing tells of them. It takes no memory.
    #[tactic(auto, unfolding(def_hostile::specs::Hostile::raws_cut))]
    pub fn cut(&mut self, alloc: Global, one: VatId, other: VatId)
        ensures { self.new ≡ raws_cut one other self.old }
    {
        let _there = self.take_all(alloc, one, other);
        let _back = self.take_all(alloc, other, one);
    }
}
