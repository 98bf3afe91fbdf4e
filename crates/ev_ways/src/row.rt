//! The ways from one vat to each other.

ghost use Rattle.std.specs.Prelude.{◌≡◌, ◌++◌, IfOk, OnOk, map};
ghost use Rattle.ev_ways.specs.Labels.{label_of};
ghost use Rattle.ev_ways.specs.Rows.{behind, cut_to, cuts, first_to, frames_to, fresh_row, next_to, put, rest, severed, with_at};
ghost use Rattle.ev_ways.specs.Telling.{left_row};

use crate::frame::{Frame, Label};
use crate::telling::tell_left;
use crate::way::Way;
use ev_base::{Memory, VatId};
use ev_event::History;
use std::alloc::Global;
use std::collections::VecDeque;
use std::marker::Model;

/// The ways from one vat, by the number of the vat that each leads to.
pub struct Row {
    ways: Vec<Way>,
}

impl Drop for Row {
    fn drop(self) {
        let Self { ways: _ways } = self;
    }
}

impl Model for Row {
    ghost use Rattle.std.specs.Prelude.{List};
    ghost use Rattle.std.specs.Coded.{codes};
    ghost use Rattle.def_event.specs.contracts.shown.Shown as shown;
    ghost use Rattle.ev_ways.specs.Rows.{Lane};

    ghost Value = { List Lane };

    ghost coded = { Prim.hlevel (codes, shown.the_row.coded) };

    ghost view = { λ r. r.ways.items };
}

impl Row {
    /// So many ways, with nothing under way.
    #[tactic(auto, unfolding(crate::specs::Rows::fresh_row))]
    pub fn new(alloc: Global, vats: u8) -> Result<Row, Memory>
        ensures { IfOk result (λ row. row ≡ fresh_row vats) }
    {
        let mut ways = Vec::new(alloc);
        for _ in 0..vats {
            ways.push(Way::new(alloc))?;
        }
        Ok(Row { ways })
    }

    /// Whether the way to that vat is cut.
    #[tactic(auto, unfolding(crate::specs::Rows::cut_to, crate::specs::Rows::is_cut_in))]
    pub fn is_cut(&self, to: usize) -> bool
        ensures { result ≡ cut_to to self.now }
    {
        match self.ways.get(to) {
            None => false,
            Some(way) => way.is_cut(),
        }
    }

    /// Of each vat whether the way to it is cut.
    #[tactic(auto, unfolding(crate::specs::Rows::cuts))]
    pub fn cuts(&self, alloc: Global) -> Result<Vec<bool>, Memory>
        ensures { IfOk result (λ found. found.items ≡ cuts self.now) }
    {
        let mut found = Vec::new(alloc);
        for way in &self.ways {
            found.push(way.is_cut())?;
        }
        Ok(found)
    }

    /// Puts a frame on the way to that vat. Where that is cut, or is not there, it is lost and nothing tells of it.
    #[tactic(auto, unfolding(crate::specs::Rows::with_at, crate::specs::Rows::set_found))]
    pub fn push(&mut self, to: usize, frame: Frame) -> Result<(), Memory>
        ensures ok { OnOk result (self.new ≡ with_at (put frame) to self.old) }
    {
        match self.ways.get_mut(to) {
            None => Ok(()),
            Some(way) => way.push(frame),
        }
    }

    /// Takes the first frame under way to that vat, where the way is not cut.
    #[tactic(auto, unfolding(crate::specs::Rows::with_at, crate::specs::Rows::set_found, crate::specs::Rows::next_to, crate::specs::Rows::of_found))]
    pub fn carry(&mut self, to: usize) -> Option<Frame>
        ensures value { result ≡ next_to to self.old }
        ensures after { self.new ≡ with_at behind to self.old }
    {
        match self.ways.get_mut(to) {
            None => None,
            Some(way) => way.carry(),
        }
    }

    /// Cuts the way to that vat. It answers the labels of the frames that were under way, which are lost.
    #[tactic(auto, unfolding(crate::specs::Rows::with_at, crate::specs::Rows::set_found, crate::specs::Rows::frames_to, crate::specs::Rows::frames_in))]
    pub fn cut(&mut self, alloc: Global, to: usize) -> VecDeque<Label>
        ensures lost { result.items ≡ map label_of (frames_to to self.old) }
        ensures after { self.new ≡ with_at severed to self.old }
    {
        match self.ways.get_mut(to) {
            None => VecDeque::new(alloc),
            Some(way) => way.cut(alloc),
        }
    }

    /// Takes the first of the frames on the way to that vat, whether it is cut or not.
    #[tactic(auto, unfolding(crate::specs::Rows::with_at, crate::specs::Rows::set_found, crate::specs::Rows::first_to, crate::specs::Rows::of_found))]
    pub fn lose(&mut self, to: usize) -> Option<Frame>
        ensures value { result ≡ first_to to self.old }
        ensures after { self.new ≡ with_at rest to self.old }
    {
        match self.ways.get_mut(to) {
            None => None,
            Some(way) => way.lose(),
        }
    }

    /// The frames that are left on the ways, those to the first vat first.
    #[tactic(auto, using(crate::proofs::Tellings::row_grown, crate::proofs::Tellings::row_none))]
    pub fn tell_left(self, alloc: Global, history: &mut History, from: VatId) -> Result<(), Memory>
        ensures { OnOk result (history.new ≡ history.old ++ left_row from 0 self) }
    {
        let Row { ways } = self;
        let mut to = 0u8;
        for way in ways {
            tell_left(alloc, history, from, VatId(to), way.into_labels())?;
            to = to.checked_add(1).ok_or(Memory)?;
        }
        Ok(())
    }
}
