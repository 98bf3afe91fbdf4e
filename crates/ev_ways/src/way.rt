//! The way from one vat to another.

ghost use Rattle.std.specs.Prelude.{◌≡◌, IfOk, OnErr, OnOk, map};
ghost use Rattle.ev_ways.specs.Labels.{label_of};
ghost use Rattle.ev_ways.specs.Rows.{behind, first, fresh, next, put, rest, severed};

use crate::Link;
use crate::frame::{Frame, Label};
use ev_base::Memory;
use std::alloc::Global;
use std::collections::VecDeque;
use std::marker::Model;
use std::mem;

/// The frames under way from one vat to another. A way that was cut stays so, and carries nothing.
#[derive(Drop)]
pub struct Way {
    /// The bytes of the frames, as they come in pieces.
    link: Link,
    /// Of each frame its label, in order.
    labels: VecDeque<Label>,
}

impl Model for Way {
    ghost use Rattle.std.specs.Coded.{codes};
    ghost use Rattle.def_event.specs.contracts.shown.Shown as shown;
    ghost use Rattle.ev_ways.specs.Labels.{ArePaired, all_labelled};
    ghost use Rattle.ev_ways.specs.Rows.{Lane};

    ghost Value = { Lane };

    ghost coded = { Prim.hlevel (codes, shown.the_row.coded) };

    ghost view = { λ w. record { is_cut = w.link.is_cut; frames = all_labelled w.labels.items w.link.frames } };

    ghost invariant = { λ w. ArePaired w.labels.items w.link };
}

impl Way {
    /// A way with nothing under way, which takes no memory.
    #[tactic(auto, unfolding(crate::specs::Labels::all_labelled))]
    pub fn new(alloc: Global) -> Way
        ensures { result ≡ fresh }
    {
        Way {
            link: Link::new(alloc),
            labels: VecDeque::new(alloc),
        }
    }

    /// Whether the way is cut.
    pub fn is_cut(&self) -> bool
        ensures { result ≡ self.now.is_cut }
    {
        self.link.is_cut()
    }

    /// Puts a frame behind those under way. On a way that is cut it is lost, and nothing tells of it. A refusal leaves the way as it was.
    #[tactic(auto, unfolding(crate::specs::Rows::put))]
    pub fn push(&mut self, frame: Frame) -> Result<(), Memory>
        ensures ok { OnOk result (self.new ≡ put frame self.old) }
        ensures err { OnErr result (self.new ≡ self.old) }
    {
        if self.link.is_cut() {
            return Ok(());
        }
        let Frame {
            bytes,
            note,
            message,
            asks,
        } = frame;
        self.labels.reserve(1)?;
        self.link.push(bytes.as_slice())?;
        self.labels.push_back_reserved(Label {
            note,
            message,
            asks,
        });
        Ok(())
    }

    /// Takes the first frame under way, where there is one and the way is not cut. It takes no memory.
    #[tactic(auto, unfolding(crate::specs::Rows::next, crate::specs::Rows::behind, crate::specs::Rows::first, crate::specs::Rows::rest))]
    pub fn carry(&mut self) -> Option<Frame>
        ensures value { result ≡ next self.old }
        ensures after { self.new ≡ behind self.old }
    {
        if self.link.is_cut() {
            return None;
        }
        self.lose()
    }

    /// Cuts the way. It answers the labels of the frames that were under way, which are lost. It takes no memory.
    #[tactic(auto, unfolding(crate::specs::Labels::all_labelled), using(crate::proofs::Labels::labels_of))]
    pub fn cut(&mut self, alloc: Global) -> VecDeque<Label>
        ensures lost { result.items ≡ map label_of self.old.frames }
        ensures after { self.new ≡ severed self.old }
    {
        self.link.cut();
        mem::replace(&mut self.labels, VecDeque::new(alloc))
    }

    /// Takes the first of the frames, whether the way is cut or not. It takes no memory.
    #[tactic(auto, unfolding(crate::specs::Rows::first, crate::specs::Rows::rest))]
    pub fn lose(&mut self) -> Option<Frame>
        ensures value { result ≡ first self.old }
        ensures after { self.new ≡ rest self.old }
    {
        let bytes = self.link.carry()?;
        let Label {
            note,
            message,
            asks,
        } = self.labels.pop_front()?;
        Some(Frame {
            bytes,
            note,
            message,
            asks,
        })
    }

    /// The labels of all frames on the way.
    #[tactic(auto, using(crate::proofs::Labels::labels_of))]
    pub fn into_labels(self) -> VecDeque<Label>
        ensures { result.items ≡ map label_of self.frames }
    {
        let Way { labels, .. } = self;
        labels
    }
}
