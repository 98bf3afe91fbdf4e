//! The ways between all vats of a run.

ghost use Rattle.std.specs.Prelude.{◌≡◌, ◌++◌, IfOk, OnOk, map};
ghost use Rattle.ev_ways.specs.Labels.{label_of};
ghost use Rattle.ev_ways.specs.Rows.{behind, changed, changed_from, cuts, first_at, first_from, frames_at, fresh_rows, is_cut_at, next_at, next_from, put, rest, row_at, severed};
ghost use Rattle.ev_ways.specs.Telling.{left_rows};

use crate::frame::{Frame, Label};
use crate::row::Row;
use ev_base::{Memory, VatId};
use ev_event::History;
use std::alloc::Global;
use std::collections::VecDeque;
use std::marker::Model;

/// The way from each vat to each other. A vat has none to itself.
#[derive(Drop)]
pub struct Ways {
    /// By sender, and each by receiver.
    rows: Vec<Row>,
}

impl Model for Ways {
    ghost use Rattle.std.specs.Prelude.{List};
    ghost use Rattle.std.specs.Coded.{codes};
    ghost use Rattle.def_event.specs.contracts.shown.Shown as shown;
    ghost use Rattle.ev_ways.specs.Rows.{Lane};

    ghost Value = { List (List Lane) };

    ghost coded = { Prim.hlevel (codes, shown.the_row.coded) };

    ghost view = { λ w. w.rows.items };
}

impl Ways {
    /// The ways between so many vats, with nothing under way.
    #[tactic(auto, unfolding(crate::specs::Rows::fresh_rows))]
    pub fn new(alloc: Global, vats: u8) -> Result<Ways, Memory>
        ensures { IfOk result (λ ways. ways ≡ fresh_rows vats) }
    {
        let mut rows = Vec::new(alloc);
        for _ in 0..vats {
            let row = Row::new(alloc, vats)?;
            rows.push(row)?;
        }
        Ok(Ways { rows })
    }

    /// Whether the way from one vat to another is cut.
    #[tactic(auto, unfolding(crate::specs::Rows::is_cut_at, crate::specs::Rows::row_at, crate::specs::Rows::row_of, crate::specs::Rows::cut_to, crate::specs::Rows::is_cut_in))]
    pub fn is_cut(&self, from: VatId, to: VatId) -> bool
        ensures { result ≡ is_cut_at from to self.now }
    {
        match self.rows.get(from.0 as usize) {
            None => false,
            Some(row) => row.is_cut(to.0 as usize),
        }
    }

    /// Of each vat whether the way to it is cut.
    #[tactic(auto, unfolding(crate::specs::Rows::cuts, crate::specs::Rows::row_at, crate::specs::Rows::row_of))]
    pub fn cuts_of(&self, alloc: Global, from: VatId) -> Result<Vec<bool>, Memory>
        ensures { IfOk result (λ found. found.items ≡ cuts (row_at from self.now)) }
    {
        match self.rows.get(from.0 as usize) {
            None => Ok(Vec::new(alloc)),
            Some(row) => row.cuts(alloc),
        }
    }

    /// Puts a frame on the way from one vat to another. Where that is cut, or is not there, it is lost and nothing tells of it.
    #[tactic(auto, unfolding(crate::specs::Rows::changed))]
    pub fn push(&mut self, from: VatId, to: VatId, frame: Frame) -> Result<(), Memory>
        ensures { OnOk result (self.new ≡ changed (put frame) from to self.old) }
    {
        if from.0 == to.0 {
            return Ok(());
        }
        self.push_from(from.0 as usize, to.0 as usize, frame)
    }

    #[tactic(auto, unfolding(crate::specs::Rows::changed_from, crate::specs::Rows::with_at, crate::specs::Rows::set_found))]
    fn push_from(&mut self, from: usize, to: usize, frame: Frame) -> Result<(), Memory>
        ensures { OnOk result (self.new ≡ changed_from (put frame) from to self.old) }
    {
        match self.rows.get_mut(from) {
            None => Ok(()),
            Some(row) => row.push(to, frame),
        }
    }

    /// Takes the first frame under way from one vat to another, where the way is not cut. None where there is none.
    #[tactic(auto, unfolding(crate::specs::Rows::changed, crate::specs::Rows::next_at))]
    pub fn carry(&mut self, from: VatId, to: VatId) -> Option<Frame>
        ensures value { result ≡ next_at from to self.old }
        ensures after { self.new ≡ changed behind from to self.old }
    {
        if from.0 == to.0 {
            return None;
        }
        self.carry_from(from.0 as usize, to.0 as usize)
    }

    #[tactic(auto, unfolding(crate::specs::Rows::changed_from, crate::specs::Rows::with_at, crate::specs::Rows::set_found, crate::specs::Rows::next_from, crate::specs::Rows::of_found))]
    fn carry_from(&mut self, from: usize, to: usize) -> Option<Frame>
        ensures value { result ≡ next_from from to self.old }
        ensures after { self.new ≡ changed_from behind from to self.old }
    {
        match self.rows.get_mut(from) {
            None => None,
            Some(row) => row.carry(to),
        }
    }

    /// Cuts the way from one vat to another. It answers the labels of the frames that were under way, which are lost.
    #[tactic(auto, unfolding(crate::specs::Rows::changed, crate::specs::Rows::changed_from, crate::specs::Rows::with_at, crate::specs::Rows::set_found, crate::specs::Rows::frames_at, crate::specs::Rows::row_at, crate::specs::Rows::row_of, crate::specs::Rows::frames_to, crate::specs::Rows::frames_in))]
    pub fn cut(&mut self, alloc: Global, from: VatId, to: VatId) -> VecDeque<Label>
        ensures lost { result.items ≡ map label_of (frames_at from to self.old) }
        ensures after { self.new ≡ changed severed from to self.old }
    {
        if from.0 == to.0 {
            return VecDeque::new(alloc);
        }
        match self.rows.get_mut(from.0 as usize) {
            None => VecDeque::new(alloc),
            Some(row) => row.cut(alloc, to.0 as usize),
        }
    }

    /// Takes the first of the frames on the way from one vat to another, whether it is cut or not.
    #[tactic(auto, unfolding(crate::specs::Rows::changed, crate::specs::Rows::first_at))]
    pub fn lose(&mut self, from: VatId, to: VatId) -> Option<Frame>
        ensures value { result ≡ first_at from to self.old }
        ensures after { self.new ≡ changed rest from to self.old }
    {
        if from.0 == to.0 {
            return None;
        }
        self.lose_from(from.0 as usize, to.0 as usize)
    }

    #[tactic(auto, unfolding(crate::specs::Rows::changed_from, crate::specs::Rows::with_at, crate::specs::Rows::set_found, crate::specs::Rows::first_from, crate::specs::Rows::of_found))]
    fn lose_from(&mut self, from: usize, to: usize) -> Option<Frame>
        ensures value { result ≡ first_from from to self.old }
        ensures after { self.new ≡ changed_from rest from to self.old }
    {
        match self.rows.get_mut(from) {
            None => None,
            Some(row) => row.lose(to),
        }
    }

    /// The frames that are left on the ways between vats, those of the first sender first.
    #[tactic(auto, using(crate::proofs::Tellings::rows_grown, crate::proofs::Tellings::rows_none))]
    pub fn tell_left(self, alloc: Global, history: &mut History) -> Result<(), Memory>
        ensures { OnOk result (history.new ≡ history.old ++ left_rows 0 self) }
    {
        let Ways { rows } = self;
        let mut from = 0u8;
        for row in rows {
            row.tell_left(alloc, history, VatId(from))?;
            from = from.checked_add(1).ok_or(Memory)?;
        }
        Ok(())
    }
}
