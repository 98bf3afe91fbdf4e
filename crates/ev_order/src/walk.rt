//! What the lines of a trace say of the order of messages, gathered line by line.

ghost use Rattle.std.specs.Prelude.{◌≡◌, ◌∷◌, ◌++◌, [], Some, None, length, map, IfOk, OnOk};
ghost use Rattle.def_event.specs.Order.{is_object, note_carrying, raw_vat, vat_behind};
ghost use Rattle.ev_order.specs.Chains.{IsChain, reference};
ghost use Rattle.ev_order.specs.Walk.{Does, IsWalked, Steps, carries_of, deed_of, does_carry, does_send, does_take, started};

use crate::chains::Chains;
use crate::mentions::{Mention, Mentions};
use def_event::{Event, RawLine, Shown, ShownNote};
use ev_base::{Memory, Msg, Name, Seq, VatId};
use std::alloc::Global;
use std::marker::Model;

/// What the lines so far say: the vat of the next line, the places of references, and the first send, carry and take of
/// each message.
#[derive(Drop)]
pub struct Walk {
    pub here: Option<u8>,
    pub chains: Chains,
    pub sent: Mentions,
    pub carried: Mentions,
    pub taken: Mentions,
}

impl Model for Walk {
    ghost use Rattle.ev_order.specs.Walk.{Walked};

    ghost Value = { Walked };

    ghost view = { λ w. record { here = w.here; chain = w.chains; sent = w.sent; carried = w.carried; taken = w.taken } };
}

/// The vat of the lines behind a line about a frame: that to which the frame comes, and none where it is put on a link.
fn raw_vat(here: Option<u8>, line: &RawLine) -> Option<u8>
    ensures { result ≡ raw_vat here line.now }
{
    match line {
        RawLine::Inject(_, _, _, _) | RawLine::InjectCut(_, _, _) => None,
        RawLine::Malformed(_, _, vat, _) | RawLine::Bytes(_, _, vat, _) => Some(vat.0),
        RawLine::LeftBytes(_, _, _) => here,
    }
}

/// The vat of the lines behind an event.
fn vat_behind(here: Option<u8>, event: &Event) -> Option<u8>
    ensures { result ≡ vat_behind here event.now }
{
    match event {
        Event::Open(vat) | Event::Turn(_, vat) | Event::Notice(_, vat, _) => Some(vat.0),
        Event::Carry(_, _, reaches, _) => Some(reaches.0),
        Event::Idle(_) | Event::Cut(_, _, _) => None,
        Event::Raw(line) => raw_vat(here, line),
        _ => here,
    }
}

/// Whether a value is an object.
pub(crate) fn is_object(value: &Shown) -> bool
    ensures { result ≡ is_object value.now }
{
    matches!(value, Shown::Name(Name::Object(_, _)))
}

/// Values of a vat come behind the others.
fn add_all(chains: &mut Chains, vat: Option<u8>, values: &[Shown]) -> Result<(), Memory>
    requires { IsChain chains.old }
    ensures chain { OnOk result (IsChain chains.new) }
    ensures references { OnOk result (chains.new.references ≡ chains.old.references ++ map (reference vat) values.now) }
{
    for value in values {
        chains.add(vat, value)?;
    }
    Ok(())
}

impl Walk {
    /// No lines. It takes no memory.
    pub fn new(alloc: Global) -> Walk
        ensures chain { IsChain result.chain }
        ensures started { started result }
    {
        Walk {
            here: None,
            chains: Chains::new(alloc),
            sent: Mentions::new(alloc),
            carried: Mentions::new(alloc),
            taken: Mentions::new(alloc),
        }
    }

    fn add_send(
        &mut self,
        line: usize,
        message: Msg,
        target: &Shown,
        args: &Seq<Shown>,
    ) -> Result<(), Memory>
        requires { IsChain self.old.chain }
        ensures { OnOk result (Does line (does_send self.old.here (record { message = message; target = target.now; args = args.now })) self.old self.new) }
    {
        let first = self.chains.len();
        add_all(&mut self.chains, self.here, args.as_slice())?;
        self.chains.add(self.here, target)?;
        let mention = Mention {
            line,
            first,
            args: args.len(),
            vat: self.here,
        };
        self.sent.add(message, mention)?;
        Ok(())
    }

    fn add_carry(
        &mut self,
        line: usize,
        leaves: VatId,
        reaches: VatId,
        message: Msg,
        args: &Seq<Shown>,
    ) -> Result<(), Memory>
        requires { IsChain self.old.chain }
        ensures { OnOk result (Does line (does_carry (record { message = message; leaves = leaves; reaches = reaches; args = args.now })) self.old self.new) }
    {
        let first = self.chains.len();
        add_all(&mut self.chains, Some(reaches.0), args.as_slice())?;
        let mention = Mention {
            line,
            first,
            args: args.len(),
            vat: Some(leaves.0),
        };
        self.carried.add(message, mention)?;
        Ok(())
    }

    fn add_take(&mut self, line: usize, message: Msg, by_object: bool) -> Result<(), Memory>
        requires { IsChain self.old.chain }
        ensures { OnOk result (Does line (does_take (record { message = message; by_object = by_object })) self.old self.new) }
    {
        let mention = Mention {
            line,
            first: 0,
            args: 0,
            vat: None,
        };
        self.taken.add(message, mention)?;
        Ok(())
    }

    /// What a note that is carried does.
    fn add_note(
        &mut self,
        line: usize,
        leaves: VatId,
        reaches: VatId,
        note: &ShownNote,
    ) -> Result<(), Memory>
        requires { IsChain self.old.chain }
        ensures { OnOk result (Does line (carries_of (note_carrying leaves reaches note.now)) self.old self.new) }
    {
        match note {
            ShownNote::Deliver { message, args, .. } => {
                self.add_carry(line, leaves, reaches, *message, args)
            }
            ShownNote::DeliverOnly { message, args, .. } => {
                self.add_carry(line, leaves, reaches, *message, args)
            }
            _ => Ok(()),
        }
    }

    /// What an event does with a message.
    fn add_event(&mut self, line: usize, event: &Event) -> Result<(), Memory>
        requires { IsChain self.old.chain }
        ensures { OnOk result (Does line (deed_of self.old.here event.now) self.old self.new) }
    {
        match event {
            Event::Send(sent) => {
                let sent = sent.get();
                self.add_send(line, sent.message, &sent.target, &sent.args)
            }
            Event::SendOnly(sent) => {
                let sent = sent.get();
                self.add_send(line, sent.message, &sent.target, &sent.args)
            }
            Event::Carry(_, leaves, reaches, note) => {
                self.add_note(line, *leaves, *reaches, note.get())
            }
            Event::Take(taken) => {
                let taken = taken.get();
                self.add_take(line, taken.message, is_object(&taken.target))
            }
            _ => Ok(()),
        }
    }

    /// One line more.
    pub fn add_line(&mut self, line: usize, event: &Event) -> Result<(), Memory>
        requires { IsChain self.old.chain }
        ensures { OnOk result (Steps line event.now self.old self.new) }
    {
        self.add_event(line, event)?;
        self.here = vat_behind(self.here, event);
        Ok(())
    }
}

/// Walks all lines of a trace. Time grows with their length.
pub fn walk_all(alloc: Global, events: &[Event]) -> Result<Walk, Memory>
    ensures { IfOk result (λ walk. IsWalked events.now walk) }
{
    let mut walk = Walk::new(alloc);
    for (line, event) in events.iter().enumerate() {
        walk.add_line(line, event)?;
    }
    Ok(walk)
}
