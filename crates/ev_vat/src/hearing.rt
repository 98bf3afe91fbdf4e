//! A vat with its connections hears the frames of its peers.

ghost use Rattle.std.specs.Prelude.{◌≡◌, ◌++◌, ℕ, List, None, IfOk, IfSome, OnOk, slice_set};
ghost use Rattle.def_run.specs.Vats.{Member as Theirs};
ghost use Rattle.def_machine.specs.Arrive as machine;
ghost use Rattle.def_machine.specs.Values.{Local, Words};
ghost use Rattle.ev_vat.specs.Hearing.{BringsSo, Hears, answer_of, answered_if, asked_of, frame_heard, heard_view, taken, with_texts};
ghost use Rattle.ev_vat.specs.Standing.{IsFound};
ghost use Rattle.ev_pass.specs.Reading.{names_under};
ghost use Rattle.ev_wire.specs.Hearing as code;
ghost use Rattle.ev_wire.specs.Learnt.{put_all};
ghost use Rattle.ev_arrive.specs.Hearing.{Name, heard_by};
ghost use Rattle.ev_room.specs.Reading.{World, names, texts_of};
ghost use Rattle.ev_room.specs.Sound.{Grown, IsSound, Stays};
ghost use Rattle.ev_vat.specs.Vat.{ArrivalIs, IsReady, UnlessMemory};
ghost use Rattle.ev_wire.specs.Putting.{table_for};
ghost use Rattle.law_evaluation.specs.Arrivals.Arrivals.{NoteFits, vat_in};

use crate::member::Member;
use crate::sending::Sending;
use crate::{Vat, VatStop};
use ev_arrive::{Heard, Host};
use ev_base::{Memory, PromId, Str, VatId};
use ev_tables::Connection;
use ev_wire::LearntTable;
use ev_wire::fault::HearFault;
use ev_wire::hearing::hear_frame;
use ev_wire::news::{Hearing, News};
use ev_wire::taking::take_in;

/// What a frame came to: the frames to be sent, and what it brought besides its note.
#[derive(Drop)]
pub struct Arrival {
    pub sendings: Vec<Sending>,
    pub news: News,
}

/// Keeps texts, which have the next numbers. After want of memory some are kept.
fn keep_texts(vat: &mut Vat, texts: &[Str]) -> Result<(), Memory>
    ensures { OnOk result (vat.new ≡ with_texts texts.now vat.old) }
{
    for text in texts {
        vat.keep_text(text.as_str())?;
    }
    Ok(())
}

/// Keeps the texts that a frame brought, which have the next numbers. After want of memory some are kept.
pub fn keep_news(vat: &mut Vat, news: &News) -> Result<(), Memory>
    ensures { OnOk result (vat.new ≡ with_texts news.now.texts vat.old) }
{
    keep_texts(vat, news.texts.as_slice())
}

/// A note arrives, behind the texts that its frame brought.
fn come_in(vat: &mut Vat, from: VatId, note: Heard, news: &News) -> Result<(), VatStop>
    requires ready { IsReady vat.old }
    requires fits { vat.old.stopped ≡ None → NoteFits (with_texts news.now.texts vat.old).host.inside.heap note }
    ensures step { vat.old.stopped ≡ None → (w : World) (rest : List Words) → texts_of w ≡ vat.new.host.inside.heap.texts ++ rest → vat.old.host.inside.words.key ≡ w.key → (n : Local) (x : Name) (c : ℕ)
        → ArrivalIs w result vat.new.host (machine.arrive (names w) from (heard_by (texts_of w) n x c from note) (vat_in w (with_texts news.now.texts vat.old).host)) }
    ensures grown { vat.old.stopped ≡ None → UnlessMemory result (Grown (with_texts news.now.texts vat.old).host.inside.heap vat.new.host.inside.heap) }
    ensures stays { vat.old.stopped ≡ None → UnlessMemory result (Stays vat.old.host.inside vat.new.host.inside) }
    ensures sound { OnOk result (IsSound vat.new.host.inside) }
    ensures going { OnOk result (vat.new.stopped ≡ None) }
{
    keep_news(vat, news)?;
    vat.arrive(from, note)
}

/// What a note asks the vat for.
#[derive(Clone, Copy)]
pub enum Asked {
    /// It asks for nothing.
    Nothing,
    /// The answer of the message, the next name that the vat comes to know once the note was read.
    Next,
    /// The gift of that provider under that word.
    Gift(VatId, u128),
}

/// What that is.
pub fn asked_of(note: &Heard) -> Asked
    ensures { result ≡ asked_of note.now }
{
    match note {
        Heard::Deliver { asks, .. } => {
            if *asks {
                return Asked::Next;
            }
            Asked::Nothing
        }
        Heard::Ask(provider, word) => Asked::Gift(*provider, *word),
        Heard::Open(_, _) | Heard::Settled(_, _) | Heard::Elsewhere(_, _) | Heard::Shorten(_, _) =>
            Asked::Nothing,
    }
}

/// The promise that was asked for, once the note arrived that found so many names.
pub fn answer_of(asked: Asked, known: u64, host: &Host) -> Option<PromId>
    ensures { result ≡ answer_of asked known host.now }
{
    match asked {
        Asked::Nothing => None,
        Asked::Next => Some(PromId(known)),
        Asked::Gift(provider, word) => match host.gifts.find(provider, word) {
            Some((name, _opened)) => Some(name),
            None => None,
        },
    }
}

/// The peer asked its next question, if it asked for something.
fn answer_next(connection: &mut Connection, answer: Option<PromId>) -> Result<(), Memory>
    ensures { OnOk result (connection.new ≡ answered_if answer connection.old) }
{
    match answer {
        Some(promise) => {
            let question = connection.next_answer();
            match connection.answer(question, promise) {
                Ok(()) => Ok(()),
                Err(_fault) => Err(Memory),
            }
        }
        None => Ok(()),
    }
}

/// What a frame of the peer brought is taken in, and its next question is answered, if it asked for something.
fn take_news(
    connection: &mut Connection,
    learnt: &mut LearntTable,
    news: &News,
    answer: Option<PromId>,
) -> Result<(), Memory>
    ensures connection { OnOk result (connection.new ≡ taken news.now answer connection.old) }
    ensures gifts { OnOk result (learnt.new ≡ put_all news.now.gifts learnt.old) }
{
    take_in(connection, learnt, news)?;
    answer_next(connection, answer)
}

/// What a frame of that vat brought is taken in, and its next question is answered, if it asked for something. A vat without an open
/// connection is answered as want of memory; after it the connections are of no use any more.
pub fn take_from(
    connections: &mut Vec<Connection>,
    learnt: &mut LearntTable,
    from: VatId,
    news: &News,
    answer: Option<PromId>,
) -> Result<(), Memory>
    ensures connections { OnOk result (connections.new.items ≡ slice_set connections.old.items from (taken news.now answer (table_for from connections.old.items))) }
    ensures gifts { OnOk result (learnt.new ≡ put_all news.now.gifts learnt.old) }
{
    match connections.get_mut(from.0 as usize) {
        Some(connection) => take_news(connection, learnt, news, answer),
        None => Err(Memory),
    }
}

impl Member {
    /// What is heard of a frame of that vat, if it is not malformed. A vat without a connection is answered as want of memory.
    pub fn heard(&self, from: VatId, frame: &[u8]) -> Result<Option<Hearing>, Memory>
        ensures { IfOk result (λ o. heard_view o ≡ code.frame_heard self.now.vat.host.inside (table_for from self.now.connections.items) self.now.learnt frame.now) }
    {
        match self.connections.get(from.0 as usize) {
            Some(connection) => {
                match hear_frame(self.vat.inside(), connection, &self.learnt, frame) {
                    Ok(hearing) => Ok(Some(hearing)),
                    Err(HearFault::Malformed) => Ok(None),
                    Err(HearFault::Memory) => Err(Memory),
                }
            }
            None => Err(Memory),
        }
    }

    /// A frame of that vat comes in: the note that it says arrives, and it answers the frames to be sent, and what came to stand at
    /// positions, was learnt and known by the frame. A malformed frame is answered by none, and leaves the member as it was.
    pub fn hear(&mut self, from: VatId, frame: &[u8]) -> Result<Option<Arrival>, VatStop>
        requires ready { IsReady self.old.vat }
        ensures step { (fuel : ℕ) (drawn : List ℕ) (m : Theirs) → IsFound fuel drawn m self.old
            → Hears (names_under self.old.vat.host.inside.words.key) fuel drawn from m (λ a. a.sendings.items) result self.old self.new (frame_heard from m frame.now) }
        ensures news { (fuel : ℕ) (drawn : List ℕ) (m : Theirs) → IsFound fuel drawn m self.old → IfOk result (λ o. IfSome o (λ a. BringsSo from m (frame_heard from m frame.now) a.news)) }
        ensures ready { OnOk result (IsReady self.new.vat) }
        ensures key { self.old.vat.stopped ≡ None → OnOk result (self.new.vat.host.inside.words.key ≡ self.old.vat.host.inside.words.key) }
    {
        let Some(hearing) = self.heard(from, frame)? else {
            return Ok(None);
        };
        let Hearing { note, news } = hearing;
        let asked = asked_of(&note);
        come_in(&mut self.vat, from, note, &news)?;
        let answer = answer_of(asked, news.known, self.vat.host());
        take_from(&mut self.connections, &mut self.learnt, from, &news, answer)?;
        Ok(Some(Arrival {
            sendings: self.send()?,
            news,
        }))
    }
}
