//! Sends and reactions of an activation.

ghost use Rattle.std.specs.Prelude.{◌≡◌};
ghost use Rattle.ev_steps.specs.Eventual.{referred, send_by, send_some, send_with, when_answer, when_by};
ghost use Rattle.ev_room.specs.Acts.{Gives};
ghost use Rattle.ev_settle.specs.Reacting.{when_resolved};
ghost use Rattle.ev_settle.specs.Sending as sending;

use crate::lifting::lifted;
use crate::message::{Request, message_in};
use ev_base::{ActId, PromId, TextId, Value};
use ev_room::Exit;
use ev_room::room::Room;
use ev_settle::{send, send_only, when};

/// The problem of a verb that is no text, and of arguments that are no list or too many.
pub const BAD_MESSAGE: TextId = TextId(44);

/// The problem of what is no object of this vat.
pub const NOT_NEAR: TextId = TextId(29);

/// A message is sent; it gives the name of its answer.
#[tactic(auto, using(crate::proofs::Lifts::lifts), unfolding(crate::specs::Eventual::referred))]
fn send_message(
    act: ActId,
    target: Value,
    request: &Request,
    room: &mut Room,
) -> Result<PromId, Exit>
    ensures outcome { Gives result room.new (referred (sending.send act target request.now.verb request.now.args) room.old) }
{
    lifted(send(room, act, target, &request.verb, request.args.as_slice()))
}

/// A message is sent that asks for no answer.
#[tactic(auto, using(crate::proofs::Lifts::lifts), unfolding(crate::specs::Eventual::referred))]
fn send_lone(act: ActId, target: Value, request: &Request, room: &mut Room) -> Result<(), Exit>
    ensures outcome { Gives result room.new (referred (sending.send_only act target request.now.verb request.now.args) room.old) }
{
    lifted(send_only(room, act, target, &request.verb, request.args.as_slice()))
}

/// A message is sent without an answer, which gives null, or with one, which gives that.
#[tactic(auto, using(ev_room::proofs::Exits::ends), unfolding(crate::specs::Eventual::opened_eventual))]
fn send_by(
    only: bool,
    act: ActId,
    target: Value,
    request: &Request,
    room: &mut Room,
) -> Result<Value, Exit>
    ensures outcome { Gives result room.new (send_by only act target request.now.verb request.now.args room.old) }
{
    if only {
        send_lone(act, target, request, room)?;
        return Ok(Value::Null);
    }
    let answer = send_message(act, target, request, room)?;
    Ok(Value::Prom(answer))
}

/// A message is sent, if it is one.
#[tactic(auto, unfolding(crate::specs::Eventual::opened_eventual))]
fn send_some(
    only: bool,
    act: ActId,
    target: Value,
    message: &Option<Request>,
    room: &mut Room,
) -> Result<Value, Exit>
    ensures outcome { Gives result room.new (send_some only act target message.now room.old) }
{
    match message {
        Some(request) => send_by(only, act, target, request, room),
        None => Err(Exit::Thrown(BAD_MESSAGE)),
    }
}

/// `E.send` and `E.sendOnly`: a message with this verb and the members of this list as its arguments is sent on a target, as it is held.
/// It gives the answer, or null where the message asks for none.
#[tactic(auto, unfolding(crate::specs::Eventual::opened_eventual))]
pub fn send_with(
    only: bool,
    act: ActId,
    target: Value,
    verb: Value,
    list: Value,
    room: &mut Room,
) -> Result<Value, Exit>
    ensures outcome { Gives result room.new (send_with only act target verb list room.old) }
{
    let verb = room.refs.deref(verb);
    let list = room.refs.deref(list);
    let message = message_in(room.alloc, &room.heap, verb, list)?;
    send_some(only, act, target, &message, room)
}

/// An object is asked to react on a value; it gives the name of the answer, if the object is near.
#[tactic(auto, using(crate::proofs::Lifts::lifts), unfolding(crate::specs::Eventual::referred))]
fn ask_reaction(
    act: ActId,
    value: Value,
    object: Value,
    room: &mut Room,
) -> Result<Option<PromId>, Exit>
    ensures outcome { Gives result room.new (referred (when_resolved act value object) room.old) }
{
    lifted(when(room, act, value, object))
}

/// `Ref.whenResolved`: an object reacts on a value once that is settled. It gives the answer of the reaction.
#[tactic(auto, using(ev_room::proofs::Exits::ends), unfolding(crate::specs::Eventual::opened_eventual))]
pub fn when_by(act: ActId, value: Value, object: Value, room: &mut Room) -> Result<Value, Exit>
    ensures outcome { Gives result room.new (when_by act value object room.old) }
{
    match ask_reaction(act, value, object, room)? {
        Some(answer) => Ok(Value::Prom(answer)),
        None => Err(Exit::Thrown(NOT_NEAR)),
    }
}
