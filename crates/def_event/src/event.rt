//! What happens in a run: a variant for each kind of line of a history.

use crate::boxed::Boxed;
use crate::note::ShownNote;
use crate::raw::RawLine;
use crate::shown::Shown;
use ev_base::{Msg, Name, Seq, Str, VatId};

/// A message with its target, verb and arguments: one that a turn takes, or that is sent without an answer.
pub struct Addressed {
    pub activation: u64,
    pub message: Msg,
    pub target: Shown,
    pub verb: Str,
    pub args: Seq<Shown>,
}

impl Drop for Addressed {
    fn drop(self) {
        let Self {
            activation: _,
            message: _,
            target: _target,
            verb: _verb,
            args: _args,
        } = self;
    }
}

/// A call: who calls what, and the activation that the call begins, where it begins one.
pub struct Called {
    pub activation: u64,
    pub target: Shown,
    pub verb: Str,
    pub args: Seq<Shown>,
    pub begun: Option<u64>,
}

impl Drop for Called {
    fn drop(self) {
        let Self {
            activation: _,
            target: _target,
            verb: _verb,
            args: _args,
            begun: _,
        } = self;
    }
}

/// An object that is made: its name, its captures and its stamps.
pub struct MadeObject {
    pub activation: u64,
    pub object: Shown,
    pub name: Str,
    pub caps: Seq<Shown>,
    pub stamps: Seq<Shown>,
}

impl Drop for MadeObject {
    fn drop(self) {
        let Self {
            activation: _,
            object: _object,
            name: _name,
            caps: _caps,
            stamps: _stamps,
        } = self;
    }
}

/// A send: the message, the reference that it was sent on, and the answer.
pub struct Sent {
    pub activation: u64,
    pub message: Msg,
    pub target: Shown,
    pub verb: Str,
    pub args: Seq<Shown>,
    pub answer: Name,
}

impl Drop for Sent {
    fn drop(self) {
        let Self {
            activation: _,
            message: _,
            target: _target,
            verb: _verb,
            args: _args,
            answer: _,
        } = self;
    }
}

/// A reaction: the message that is to come, what is waited for, what reacts, and the answer.
pub struct Reacting {
    pub activation: u64,
    pub message: Msg,
    pub value: Shown,
    pub reaction: Shown,
    pub answer: Name,
}

impl Drop for Reacting {
    fn drop(self) {
        let Self {
            activation: _,
            message: _,
            value: _value,
            reaction: _reaction,
            answer: _,
        } = self;
    }
}

/// An event. What is large lies in memory of its own, since a history has many events. An entry is numbered by its place in the schedule, from 1. An activation is numbered by its place among those of its vat, from 0.
pub enum Event {
    /// `open V`: the opening turn of a vat begins.
    Open(VatId),
    /// `K turn V`
    Turn(u64, VatId),
    /// `K idle`
    Idle(u64),
    /// `K carry V W NOTE`
    Carry(u64, VatId, VatId, Boxed<ShownNote>),
    /// `K cut V W`
    Cut(u64, VatId, VatId),
    /// `K notice V W`
    Notice(u64, VatId, VatId),
    /// `frame HEX`: the bytes of the note that was carried.
    Frame(Seq<u8>),
    /// `!A take M TARGET VERB ARGS`
    Take(Boxed<Addressed>),
    /// `!A call TARGET VERB ARGS`, and `as !B` behind it where the call begins the activation B.
    Call(Boxed<Called>),
    /// `!A back X`
    Back(u64, Shown),
    /// `!A thrown X`
    Thrown(u64, Shown),
    /// `!A gone`
    Gone(u64),
    /// `!A got X`
    Got(u64, Shown),
    /// `!A slot S X`
    Slot(u64, (VatId, u64), Shown),
    /// `!A read S X`
    Read(u64, (VatId, u64), Shown),
    /// `!A wrote S X`
    Wrote(u64, (VatId, u64), Shown),
    /// `!A list L MEMBERS`: an activation makes a list.
    List(u64, (VatId, u64), Seq<Shown>),
    /// `list L MEMBERS`: a list arrives.
    Arrived((VatId, u64), Seq<Shown>),
    /// `!A ejector O`
    Ejector(u64, Shown),
    /// `!A audition O`
    Audition(u64, Shown),
    /// `!A promise P O`: O is the resolver.
    Promise(u64, Name, Shown),
    /// `!A made O NAME caps X .. stamps X ..`
    Made(Boxed<MadeObject>),
    /// `!A send M X VERB ARGS -> ANSWER`
    Send(Boxed<Sent>),
    /// `!A sendonly M X VERB ARGS`
    SendOnly(Boxed<Addressed>),
    /// `!A when M X O -> ANSWER`
    When(Boxed<Reacting>),
    /// `!A done X`
    Done(u64, Shown),
    /// `!A threw X`
    Threw(u64, Shown),
    /// `settle P X`
    Settle(Name, Shown),
    /// `wait P Q`
    Wait(Name, Name),
    /// `view P Q`
    View(Name, Name),
    /// `lost M cut`
    LostCut(Msg),
    /// `lost M broken`
    LostBroken(Msg),
    /// `left queue V M`
    LeftQueue(VatId, Msg),
    /// `left held V P M`
    LeftHeld(VatId, Name, Msg),
    /// `left wait V X M`
    LeftWait(VatId, Shown, Msg),
    /// `left link V W NOTE`
    LeftLink(VatId, VatId, Boxed<ShownNote>),
    /// `end`
    End,
    /// A line about an injected frame.
    Raw(RawLine),
}

impl Drop for Event {
    fn drop(self) {
        match self {
            Self::Open(_) => {}
            Self::Turn(_, _) => {}
            Self::Idle(_) => {}
            Self::Carry(_, _, _, _shown_note) => {}
            Self::Cut(_, _, _) => {}
            Self::Notice(_, _, _) => {}
            Self::Frame(_items) => {}
            Self::Take(_addressed) => {}
            Self::Call(_called) => {}
            Self::Back(_, _shown) => {}
            Self::Thrown(_, _shown) => {}
            Self::Gone(_) => {}
            Self::Got(_, _shown) => {}
            Self::Slot(_, _, _shown) => {}
            Self::Read(_, _, _shown) => {}
            Self::Wrote(_, _, _shown) => {}
            Self::List(_, _, _items) => {}
            Self::Arrived(_, _items) => {}
            Self::Ejector(_, _shown) => {}
            Self::Audition(_, _shown) => {}
            Self::Promise(_, _, _shown) => {}
            Self::Made(_made_object) => {}
            Self::Send(_sent) => {}
            Self::SendOnly(_addressed) => {}
            Self::When(_reacting) => {}
            Self::Done(_, _shown) => {}
            Self::Threw(_, _shown) => {}
            Self::Settle(_, _shown) => {}
            Self::Wait(_, _) => {}
            Self::View(_, _) => {}
            Self::LostCut(_) => {}
            Self::LostBroken(_) => {}
            Self::LeftQueue(_, _) => {}
            Self::LeftHeld(_, _, _) => {}
            Self::LeftWait(_, _shown, _) => {}
            Self::LeftLink(_, _, _shown_note) => {}
            Self::End => {}
            Self::Raw(_line) => {}
        }
    }
}
