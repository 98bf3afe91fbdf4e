//! A frame of a peer comes in, whoever sent it.

ghost use Rattle.std.specs.Prelude.{◌≡◌, ◌++◌, ℕ, List, None, IfOk, OnOk};
ghost use Rattle.def_run.specs.Vats.{Member as Theirs};
ghost use Rattle.def_machine.specs.Receive as theirs;
ghost use Rattle.def_machine.specs.Values.{Local, Words};
ghost use Rattle.ev_arrive.specs.Hearing.{Name, Sees, heard_by};
ghost use Rattle.ev_pass.specs.Reading.{names_under};
ghost use Rattle.ev_reception.specs.Receiving.{HostsOwn, ReceiptBrings, Receives, brings_nothing, is_question};
ghost use Rattle.ev_room.specs.Reading.{World, names, texts_of};
ghost use Rattle.ev_room.specs.Sound.{Grown, IsSound, Stays};
ghost use Rattle.ev_vat.specs.Hearing.{frame_heard, with_texts};
ghost use Rattle.ev_vat.specs.Standing.{IsFound};
ghost use Rattle.ev_vat.specs.Vat.{ArrivalIs, IsReady, UnlessMemory};
ghost use Rattle.ev_wire.specs.Putting.{table_for};
ghost use Rattle.ev_wire.specs.Sight.{sight_by};
ghost use Rattle.law_evaluation.specs.Arrivals.Arrivals.{NoteFits, vat_in};

use crate::asks::learn_put;
use ev_arrive::receiving::tells_nothing;
use ev_arrive::{Heard, Host, Sight};
use ev_base::{Memory, VatId};
use ev_vat::hearing::{answer_of, asked_of, keep_news, take_from};
use ev_vat::{Arrival, Member, Vat, VatStop};
use ev_wire::news::{Hearing, News};
use ev_wire::sight_of;

/// What a frame that came in came to.
#[derive(Drop)]
pub enum Receipt {
    /// It says nothing that this vat hears. All is as it was.
    Unheard,
    /// Its note tells nothing: nothing happens, and nothing in the frame takes a position or comes to be known. All is as it was.
    Idle,
    /// Its note came in.
    Came(Arrival),
}

/// Whether a note is a question, which is answered in any case.
fn is_question(note: &Heard) -> bool
    ensures { result ≡ is_question note.now }
{
    match note {
        Heard::Deliver { asks, .. } => *asks,
        Heard::Ask(_, _) => true,
        Heard::Open(_, _) | Heard::Settled(_, _) | Heard::Elsewhere(_, _) | Heard::Shorten(_, _) =>
            false,
    }
}

/// Whether a note of that vat brings nothing: it tells nothing, and is no question.
fn brings_nothing(host: &Host, from: VatId, sight: Sight, note: &Heard) -> bool
    ensures { result ≡ brings_nothing from sight note.now host.now }
{
    if is_question(note) {
        return false;
    }
    tells_nothing(host, from, sight, note)
}

/// What the vat's tables tell of a note of that vat. A vat without a connection is answered as want of memory.
fn sight_for(member: &Member, from: VatId, note: &Heard) -> Result<Sight, Memory>
    ensures { IfOk result (λ sight. Sees (sight_by (table_for from member.now.connections.items) member.now.learnt) member.now.vat.host note.now sight) }
{
    match member.connections.get(from.0 as usize) {
        Some(connection) => Ok(sight_of(member.vat.host(), connection, &member.learnt, note)),
        None => Err(Memory),
    }
}

/// A note comes in, behind the texts that its frame brought.
fn come_in(
    vat: &mut Vat,
    from: VatId,
    sight: Sight,
    note: Heard,
    news: &News,
) -> Result<(), VatStop>
    requires ready { IsReady vat.old }
    requires fits { vat.old.stopped ≡ None → NoteFits (with_texts news.now.texts vat.old).host.inside.heap note }
    ensures step { vat.old.stopped ≡ None → (w : World) (rest : List Words) → texts_of w ≡ vat.new.host.inside.heap.texts ++ rest → vat.old.host.inside.words.key ≡ w.key
        → (their : theirs.Sight Local) → Sees their vat.old.host note sight → (n : Local) (x : Name) (c : ℕ)
        → ArrivalIs w result vat.new.host (theirs.receive (names w) their from (heard_by (texts_of w) n x c from note) (vat_in w (with_texts news.now.texts vat.old).host)) }
    ensures grown { vat.old.stopped ≡ None → UnlessMemory result (Grown (with_texts news.now.texts vat.old).host.inside.heap vat.new.host.inside.heap) }
    ensures stays { vat.old.stopped ≡ None → UnlessMemory result (Stays vat.old.host.inside vat.new.host.inside) }
    ensures sound { OnOk result (IsSound vat.new.host.inside) }
    ensures going { OnOk result (vat.new.stopped ≡ None) }
{
    keep_news(vat, news)?;
    vat.receive(from, sight, note)
}

/// A frame of that vat comes in, whoever it is: the note that it says is received, and it answers the frames to be sent, and what came to
/// stand at positions, was learnt and known by the frame. A frame that is not heard, and one that brings nothing, leave the member as it
/// was. `alone` says that no vat is hostile: then what is asked for is not kept as a gift.
///
/// Only a frame that was judged lawful, or that a peer put which keeps to the rules, is sure to be heard.
pub fn receive(
    member: &mut Member,
    from: VatId,
    frame: &[u8],
    alone: bool,
) -> Result<Receipt, VatStop>
    requires ready { IsReady member.old.vat }
    ensures step { (fuel : ℕ) (drawn : List ℕ) (m : Theirs) → IsFound fuel drawn m member.old → HostsOwn m.vat
        → Receives (names_under member.old.vat.host.inside.words.key) alone fuel drawn from m result member.old member.new (frame_heard from m frame.now) }
    ensures news { (fuel : ℕ) (drawn : List ℕ) (m : Theirs) → IsFound fuel drawn m member.old → IfOk result (λ r. ReceiptBrings from m (frame_heard from m frame.now) r) }
    ensures ready { OnOk result (IsReady member.new.vat) }
    ensures key { member.old.vat.stopped ≡ None → OnOk result (member.new.vat.host.inside.words.key ≡ member.old.vat.host.inside.words.key) }
{
    let Some(hearing) = member.heard(from, frame)? else {
        return Ok(Receipt::Unheard);
    };
    let Hearing { note, news } = hearing;
    let sight = sight_for(member, from, &note)?;
    if brings_nothing(member.vat.host(), from, sight, &note) {
        return Ok(Receipt::Idle);
    }
    let asked = asked_of(&note);
    come_in(&mut member.vat, from, sight, note, &news)?;
    let answer = answer_of(asked, news.known, member.vat.host());
    take_from(
        &mut member.connections,
        &mut member.learnt,
        from,
        &news,
        answer,
    )?;
    learn_put(member.vat.inside(), &mut member.learnt, alone)?;
    Ok(Receipt::Came(Arrival {
        sendings: member.send()?,
        news,
    }))
}
