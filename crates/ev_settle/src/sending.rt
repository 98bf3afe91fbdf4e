//! Messages that a vat sends.

ghost use Rattle.std.specs.Prelude.{◌≡◌, IfOk, None, Some};
ghost use Rattle.ev_pass.specs.Delivering.{deliver};
ghost use Rattle.ev_heap.specs.declared.happened.Happened.TheVariants.{Send};
ghost use Rattle.ev_pass.specs.Acts.{Gives};
ghost use Rattle.ev_settle.specs.Sending.{answer_host, break_answer, new_lone_message, new_message, send, send_first, send_lone, send_new, send_only};

use crate::changes::{enqueue, hold};
use crate::settling::settle;
use ev_base::{ActId, Memory, MsgId, PromId, Seq, TextId, Value, VatId, Word};
use ev_heap::Happened;
use ev_pass::{Interior, Reference, Stop};
use ev_refs::{Fresh, Message, Place};

/// A message of the vat's own comes to be, with its answer at that host.
#[tactic(auto, unfolding(crate::specs::Sending::new_message))]
pub(crate) fn new_message(inside: &mut Interior, host: VatId) -> Result<Fresh, Stop>
    ensures { Gives result inside.new (new_message host inside.old) }
{
    match inside.refs.new_message(host) {
        Ok(fresh) => Ok(fresh),
        Err(Memory) => Err(Stop::Memory),
    }
}

/// A message of the vat's own comes to be that asks for no answer.
#[tactic(auto, unfolding(crate::specs::Sending::new_lone_message))]
fn new_lone_message(inside: &mut Interior) -> Result<MsgId, Stop>
    ensures { Gives result inside.new (new_lone_message inside.old) }
{
    match inside.refs.new_lone_message() {
        Ok(id) => Ok(id),
        Err(Memory) => Err(Stop::Memory),
    }
}

/// The host of the answer of a message on a target at this place.
fn answer_host(me: VatId, place: &Place) -> VatId
    ensures { result ≡ answer_host me place.now }
{
    match *place {
        Place::FarPromise(host, _) | Place::FarObject(host, _) => host,
        Place::Near | Place::Mine(_) | Place::Gone(_) => me,
    }
}

/// The answer of a message that is lost is broken.
#[tactic(auto, unfolding(crate::specs::Sending::break_answer, ev_pass::specs::Acts::give))]
pub(crate) fn break_answer(
    inside: &mut Interior,
    answer: Option<PromId>,
    problem: TextId,
) -> Result<(), Stop>
    ensures { Gives result inside.new (break_answer answer problem inside.old) }
{
    match answer {
        None => Ok(()),
        Some(answer) => settle(inside, answer, &Value::Broken(problem)),
    }
}

/// A message goes out to that vat.
fn deliver(
    inside: &mut Interior,
    message: Message,
    host: VatId,
    target: Reference,
) -> Result<(), Stop>
    ensures { Gives result inside.new (deliver message.id message.answer message.verb message.args host target inside.old) }
{
    let Message {
        id,
        verb,
        args,
        answer,
        ..
    } = message;
    inside.deliver(id, answer, verb, args.as_slice(), host, target)
}

/// A new message finds its place: in the queue, at a promise of this vat, at another vat, or lost.
#[tactic(auto, using(ev_pass::proofs::Ends::ends), unfolding(crate::specs::Sending::send_first, ev_pass::specs::Acts::opened_acts))]
fn send_first(inside: &mut Interior, message: Message, place: Place) -> Result<(), Stop>
    ensures { Gives result inside.new (send_first message place inside.old) }
{
    match place {
        Place::Near => enqueue(inside, message),
        Place::Mine(name) => hold(inside, name, message),
        Place::FarPromise(host, name) => {
            deliver(inside, message, host, Reference::Promise(name))
        }
        Place::FarObject(host, position) => {
            deliver(inside, message, host, Reference::Far(host, position))
        }
        Place::Gone(problem) => {
            inside.tell(Happened::LostBroken(message.id))?;
            break_answer(inside, message.answer, problem)
        }
    }
}

/// A message as it is told when it is sent.
fn sending(
    inside: &Interior,
    activation: ActId,
    message: MsgId,
    target: &Value,
    verb: &Word,
    args: &[Value],
    answer: Option<PromId>,
) -> Result<Happened, Memory>
    ensures { IfOk result (λ e. e ≡ Send activation message target.now verb.now args.now answer) }
{
    Ok(Happened::Send {
        activation,
        message,
        target: *target,
        verb: verb.share()?,
        args: Seq::of(Vec::from_slice(inside.alloc, args)?),
        answer,
    })
}

/// A message on a followed target.
fn message_on(
    inside: &Interior,
    id: MsgId,
    target: &Value,
    verb: &Word,
    args: &[Value],
    answer: Option<PromId>,
) -> Result<Message, Memory>
    ensures { IfOk result (λ m. m ≡ record { id = id; target = target.now; verb = verb.now; args = args.now; answer = answer }) }
{
    Ok(Message {
        id,
        target: *target,
        verb: verb.share()?,
        args: Seq::of(Vec::from_slice(inside.alloc, args)?),
        answer,
    })
}

/// A new message is told as it is sent, and then finds its place.
#[tactic(auto, using(ev_pass::proofs::Ends::ends), unfolding(crate::specs::Sending::send_new, crate::specs::Sending::new_message, ev_pass::specs::Acts::opened_acts))]
fn send_new(
    inside: &mut Interior,
    activation: ActId,
    held: &Value,
    verb: &Word,
    args: &[Value],
    end: &Value,
    place: Place,
    host: VatId,
) -> Result<PromId, Stop>
    ensures { Gives result inside.new (send_new activation held.now verb.now args.now end.now place host inside.old) }
{
    let fresh = new_message(inside, host)?;
    let event = sending(
        inside,
        activation,
        fresh.id,
        held,
        verb,
        args,
        Some(fresh.answer),
    )?;
    inside.tell(event)?;
    let message = message_on(inside, fresh.id, end, verb, args, Some(fresh.answer))?;
    send_first(inside, message, place)?;
    Ok(fresh.answer)
}

/// An activation sends a message on a value as it holds it: the message is queued, waits at a promise of this vat, goes out to
/// another vat, or is lost and its answer broken. It gives the name of the answer. After a stop what was done up to there stands.
#[tactic(auto, unfolding(crate::specs::Sending::send))]
pub fn send(
    inside: &mut Interior,
    activation: ActId,
    target: Value,
    verb: &Word,
    args: &[Value],
) -> Result<PromId, Stop>
    ensures { Gives result inside.new (send activation target verb.now args.now inside.old) }
{
    let held = target;
    let end = inside.refs.deref(target);
    let place = inside.refs.place(end);
    let host = answer_host(inside.refs.me(), &place);
    send_new(inside, activation, &held, verb, args, &end, place, host)
}

/// A new message that asks for no answer is told as it is sent, and then finds its place.
#[tactic(auto, using(ev_pass::proofs::Ends::ends), unfolding(crate::specs::Sending::send_lone, crate::specs::Sending::new_lone_message, ev_pass::specs::Acts::opened_acts))]
fn send_lone(
    inside: &mut Interior,
    activation: ActId,
    held: &Value,
    verb: &Word,
    args: &[Value],
    end: &Value,
    place: Place,
) -> Result<(), Stop>
    ensures { Gives result inside.new (send_lone activation held.now verb.now args.now end.now place inside.old) }
{
    let id = new_lone_message(inside)?;
    let event = sending(inside, activation, id, held, verb, args, None)?;
    inside.tell(event)?;
    let message = message_on(inside, id, end, verb, args, None)?;
    send_first(inside, message, place)
}

/// An activation sends a message that asks for no answer. After a stop what was done up to there stands.
#[tactic(auto, unfolding(crate::specs::Sending::send_only))]
pub fn send_only(
    inside: &mut Interior,
    activation: ActId,
    target: Value,
    verb: &Word,
    args: &[Value],
) -> Result<(), Stop>
    ensures { Gives result inside.new (send_only activation target verb.now args.now inside.old) }
{
    let held = target;
    let end = inside.refs.deref(target);
    let place = inside.refs.place(end);
    send_lone(inside, activation, &held, verb, args, &end, place)
}
