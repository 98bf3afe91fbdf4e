//! Operations as notes.

ghost use Rattle.std.specs.Prelude.{◌≡◌, true};
ghost use Rattle.def_op.specs.Frames.{Provide, Resolve, Shorten};
ghost use Rattle.def_op.specs.Views.{all_described, described, operation, outcome};
ghost use Rattle.ev_op.specs.Decoded.{found_view};
ghost use Rattle.ev_wire.specs.Bringing.{Ask, told};
ghost use Rattle.ev_wire.specs.Hearing.{Gives, Hears, Shows, found_heard, frame_heard, give, message_heard, name_heard, no_news, note_heard, outcome_heard, subject_at, subject_of, where_next, whole_heard};

use crate::fault::HearFault;
use crate::learnt::LearntTable;
use crate::names::hear_name;
use crate::news::{Hearing, News};
use crate::values::{hear_value, hear_values};
use def_op::{Desc, Op, Resolved};
use ev_arrive::{Carried, Heard, Incoming, Subject};
use ev_base::{Seq, Str, VatId, Word};
use ev_op::decode;
use ev_pass::{Interior, Reference, Swiss};
use ev_tables::Connection;

/// What settled is a promise.
#[tactic(auto, unfolding(crate::specs::Hearing::subject_at, crate::specs::Hearing::opened_acts))]
fn subject_at(news: &News, reference: Reference) -> Result<Subject, HearFault>
    ensures { Gives result news.now (subject_at reference news.now) }
{
    match reference {
        Reference::Promise(name) => Ok(Subject::Known(name)),
        Reference::Object(_) | Reference::Far(_, _) => Err(HearFault::Malformed),
    }
}

/// The same of a name.
#[tactic(auto, unfolding(crate::specs::Hearing::subject_of, crate::specs::Hearing::opened_acts))]
fn subject_of(news: &News, name: Incoming) -> Result<Subject, HearFault>
    ensures { Gives result news.now (subject_of name news.now) }
{
    match name {
        Incoming::Known(reference) => subject_at(news, reference),
        Incoming::New(vat) => Ok(Subject::New(vat)),
    }
}

/// What a promise came to.
#[tactic(auto, using(crate::proofs::Ends::ends), unfolding(crate::specs::Hearing::outcome_heard, crate::specs::Hearing::opened_acts))]
fn hear_outcome(
    inside: &Interior,
    connection: &Connection,
    learnt: &LearntTable,
    news: &mut News,
    subject: Subject,
    to: &Resolved,
) -> Result<Heard, HearFault>
    ensures { Shows told result news.new (outcome_heard inside.now connection.now learnt.now subject (outcome to.now) news.old) }
{
    match to {
        Resolved::To(desc) => {
            let value = hear_value(inside, connection, learnt, news, desc)?;
            Ok(Heard::Settled(subject, value))
        }
        Resolved::Elsewhere(vat) => Ok(Heard::Elsewhere(subject, *vat)),
    }
}

/// A message: its target first, and then its arguments.
#[tactic(auto, using(crate::proofs::Ends::ends), unfolding(crate::specs::Hearing::message_heard, crate::specs::Hearing::opened_acts))]
fn hear_message(
    inside: &Interior,
    connection: &Connection,
    learnt: &LearntTable,
    news: &mut News,
    asks: bool,
    target: &Desc,
    verb: &Str,
    args: &Seq<Desc>,
) -> Result<Heard, HearFault>
    ensures { Shows told result news.new (message_heard inside.now connection.now learnt.now asks (described target.now) verb.now (all_described args.now) news.old) }
{
    let target = hear_name(connection, news, target)?;
    let args = hear_values(inside, connection, learnt, news, args.as_slice())?;
    let verb = Word::copy_of(inside.alloc, verb.as_str())?;
    Ok(Heard::Deliver {
        message: Carried::New,
        asks,
        target,
        verb,
        args,
    })
}

/// A message that asks the next question.
#[tactic(auto, unfolding(crate::specs::Hearing::where_next))]
fn hear_asking(
    inside: &Interior,
    connection: &Connection,
    learnt: &LearntTable,
    news: &mut News,
    question: u64,
    target: &Desc,
    verb: &Str,
    args: &Seq<Desc>,
) -> Result<Heard, HearFault>
    ensures { Shows told result news.new (where_next connection.now question (message_heard inside.now connection.now learnt.now true (described target.now) verb.now (all_described args.now)) news.old) }
{
    if question != connection.next_answer() {
        return Err(HearFault::Malformed);
    }
    hear_message(inside, connection, learnt, news, true, target, verb, args)
}

/// The gift of a provider under a word is asked for by the next question.
#[tactic(auto, unfolding(crate::specs::Hearing::where_next, crate::specs::Hearing::opened_acts))]
fn hear_ask(
    connection: &Connection,
    news: &News,
    question: u64,
    provider: VatId,
    word: u128,
) -> Result<Heard, HearFault>
    ensures { Shows told result news.now (where_next connection.now question (give (Ask provider word)) news.now) }
{
    if question != connection.next_answer() {
        return Err(HearFault::Malformed);
    }
    Ok(Heard::Ask(provider, word))
}

/// What a promise came to, of which the sender tells.
#[tactic(auto, using(crate::proofs::Ends::ends), unfolding(crate::specs::Hearing::note_heard, crate::specs::Hearing::opened_acts))]
fn hear_resolve(
    inside: &Interior,
    connection: &Connection,
    learnt: &LearntTable,
    news: &mut News,
    subject: &Desc,
    to: &Resolved,
) -> Result<Heard, HearFault>
    ensures { Shows told result news.new (note_heard inside.now connection.now learnt.now (Resolve (described subject.now) (outcome to.now)) news.old) }
{
    let name = hear_name(connection, news, subject)?;
    let subject = subject_of(news, name)?;
    hear_outcome(inside, connection, learnt, news, subject, to)
}

/// A gift of the sender is that.
#[tactic(auto, using(crate::proofs::Ends::ends), unfolding(crate::specs::Hearing::note_heard, crate::specs::Hearing::opened_acts))]
fn hear_provide(
    inside: &Interior,
    connection: &Connection,
    learnt: &LearntTable,
    news: &mut News,
    target: &Desc,
    word: u128,
) -> Result<Heard, HearFault>
    ensures { Shows told result news.new (note_heard inside.now connection.now learnt.now (Provide (described target.now) word) news.old) }
{
    let target = hear_name(connection, news, target)?;
    Ok(Heard::Open(word, target))
}

/// What a name came to is wanted as a gift of this vat.
#[tactic(auto, using(crate::proofs::Ends::ends), unfolding(crate::specs::Hearing::note_heard, crate::specs::Hearing::opened_acts))]
fn hear_shorten(
    inside: &Interior,
    connection: &Connection,
    learnt: &LearntTable,
    news: &mut News,
    subject: &Desc,
    word: u128,
) -> Result<Heard, HearFault>
    ensures { Shows told result news.new (note_heard inside.now connection.now learnt.now (Shorten (described subject.now) word) news.old) }
{
    let subject = hear_name(connection, news, subject)?;
    let provider = inside.refs.me();
    Ok(Heard::Shorten(subject, Swiss { provider, word }))
}

/// The note of an operation, with what it brings besides.
#[tactic(auto, unfolding(crate::specs::Hearing::note_heard))]
fn hear_note(
    inside: &Interior,
    connection: &Connection,
    learnt: &LearntTable,
    news: &mut News,
    op: &Op,
) -> Result<Heard, HearFault>
    ensures { Shows told result news.new (note_heard inside.now connection.now learnt.now (operation op.now) news.old) }
{
    match op {
        Op::Deliver {
            question,
            target,
            verb,
            args,
        } => hear_asking(
            inside, connection, learnt, news, *question, target, verb, args,
        ),
        Op::DeliverOnly { target, verb, args } => hear_message(
            inside, connection, learnt, news, false, target, verb, args,
        ),
        Op::Provide { target, swiss } => {
            hear_provide(inside, connection, learnt, news, target, *swiss)
        }
        Op::Accept {
            question,
            provider,
            swiss,
        } => hear_ask(connection, news, *question, *provider, *swiss),
        Op::Resolve { subject, to } => {
            hear_resolve(inside, connection, learnt, news, subject, to)
        }
        Op::Shorten { subject, swiss } => {
            hear_shorten(inside, connection, learnt, news, subject, *swiss)
        }
    }
}

/// Hears an operation of the peer of a connection: the note that it says in this vat's numbers, and what it brings besides, of which
/// nothing is there yet. It is malformed exactly where it names a number that is not there, gives a new position or a question another
/// number than the next one, or names as an object what stands at its position as a promise, or the other way round. Hearing changes
/// nothing. The lists in the operation are at most so high as `decode` of `ev_op` lets them be.
pub fn hear(
    inside: &Interior,
    connection: &Connection,
    learnt: &LearntTable,
    op: &Op,
) -> Result<Hearing, HearFault>
    ensures { Hears result (note_heard inside.now connection.now learnt.now (operation op.now) (no_news inside.now)) }
{
    let mut news = News::new(inside);
    let note = hear_note(inside, connection, learnt, &mut news, op)?;
    Ok(Hearing { note, news })
}

/// The same, where the frame has no bytes but those of the operation.
#[tactic(auto, unfolding(crate::specs::Hearing::whole_heard))]
fn hear_whole(
    inside: &Interior,
    connection: &Connection,
    learnt: &LearntTable,
    op: &Op,
    len: u64,
    size: u64,
) -> Result<Hearing, HearFault>
    ensures { Hears result (whole_heard inside.now connection.now learnt.now (operation op.now) len size) }
{
    if len != size {
        return Err(HearFault::Malformed);
    }
    hear(inside, connection, learnt, op)
}

/// The same of what begins the bytes of a frame, if it is an operation.
#[tactic(auto, unfolding(crate::specs::Hearing::found_heard))]
fn hear_found(
    inside: &Interior,
    connection: &Connection,
    learnt: &LearntTable,
    found: Option<(Op, u64)>,
    size: u64,
) -> Result<Hearing, HearFault>
    ensures { Hears result (found_heard inside.now connection.now learnt.now size (found_view found)) }
{
    match found {
        Some((op, len)) => hear_whole(inside, connection, learnt, &op, len, size),
        None => Err(HearFault::Malformed),
    }
}

/// Hears a frame of the peer of a connection. It is malformed exactly where its bytes are not one whole operation, or `hear` finds the
/// operation malformed.
#[tactic(auto, unfolding(crate::specs::Hearing::frame_heard))]
pub fn hear_frame(
    inside: &Interior,
    connection: &Connection,
    learnt: &LearntTable,
    frame: &[u8],
) -> Result<Hearing, HearFault>
    ensures { Hears result (frame_heard inside.now connection.now learnt.now frame.now) }
{
    let found = decode(inside.alloc, frame)?;
    hear_found(inside, connection, learnt, found, frame.len() as u64)
}
