//! Reactions that an activation asks for.

ghost use Rattle.std.specs.Prelude.{◌≡◌, ◌∷◌, [], codes, IfOk, Some};
ghost use Rattle.ev_pass.specs.Acts.{Gives};
ghost use Rattle.ev_settle.specs.Reacting.{react_known, react_new, react_on, react_placed, when_placed, when_resolved};

use crate::changes::enqueue;
use crate::sending::new_message;
use ev_base::{ActId, Memory, PromId, Seq, Value, VatId, Word};
use ev_heap::Happened;
use ev_pass::{Interior, Stop};
use ev_refs::{Fresh, Message, Place};

/// A reaction waits at a name, if that is known and did not settle.
#[tactic(auto, unfolding(crate::specs::Reacting::react_known, crate::specs::Reacting::reacting_in))]
fn react_known(inside: &mut Interior, name: PromId, message: Message) -> Result<(), Stop>
    ensures { Gives result inside.new (react_known name message inside.old) }
{
    if name.0 < inside.refs.count() {
        return match inside.refs.react(name, message) {
            Ok(()) => Ok(()),
            Err(Memory) => Err(Stop::Memory),
        };
    }
    Ok(())
}

/// A reaction on a value at this place waits there, or goes to the end of the queue.
#[tactic(auto, unfolding(crate::specs::Reacting::react_placed))]
fn react_placed(inside: &mut Interior, message: Message, place: Place) -> Result<(), Stop>
    ensures { Gives result inside.new (react_placed message place inside.old) }
{
    match place {
        Place::Mine(name) => react_known(inside, name, message),
        Place::FarPromise(_, name) => react_known(inside, name, message),
        Place::Near | Place::FarObject(_, _) | Place::Gone(_) => enqueue(inside, message),
    }
}

/// A reaction on a value finds its place.
#[tactic(auto, unfolding(crate::specs::Reacting::react_on))]
fn react_on(inside: &mut Interior, message: Message, value: Value) -> Result<(), Stop>
    ensures { Gives result inside.new (react_on message value inside.old) }
{
    let end = inside.refs.deref(value);
    let place = inside.refs.place(end);
    react_placed(inside, message, place)
}

/// The message by which an object reacts on a value.
fn running(inside: &Interior, fresh: &Fresh, near: &Value, value: &Value) -> Result<Message, Memory>
    ensures { IfOk result (λ m. m ≡ record { id = fresh.now.id; target = near.now; verb = codes "run"; args = value.now ∷ []; answer = Some fresh.now.answer }) }
{
    let mut args = Vec::new(inside.alloc);
    args.push(*value)?;
    Ok(Message {
        id: fresh.id,
        target: *near,
        verb: Word::run(),
        args: Seq::of(args),
        answer: Some(fresh.answer),
    })
}

/// An object of this vat, held so and followed to `near`, is to react on a value.
#[tactic(auto, using(ev_pass::proofs::Ends::ends), unfolding(crate::specs::Reacting::react_new, crate::specs::Sending::new_message, ev_pass::specs::Acts::opened_acts))]
fn react_new(
    inside: &mut Interior,
    activation: ActId,
    value: &Value,
    reaction: &Value,
    near: &Value,
    me: VatId,
) -> Result<PromId, Stop>
    ensures { Gives result inside.new (react_new activation value.now reaction.now near.now me inside.old) }
{
    let fresh = new_message(inside, me)?;
    inside.tell(Happened::When {
        activation,
        message: fresh.id,
        value: *value,
        reaction: *reaction,
        near: *near,
        answer: fresh.answer,
    })?;
    let message = running(inside, &fresh, near, value)?;
    react_on(inside, message, *value)?;
    Ok(fresh.answer)
}

/// The same of an object that is followed to this place.
#[tactic(auto, using(ev_pass::proofs::Ends::ends), unfolding(crate::specs::Reacting::when_placed, crate::specs::Reacting::some_answer, ev_pass::specs::Acts::opened_acts))]
fn when_placed(
    inside: &mut Interior,
    activation: ActId,
    value: &Value,
    reaction: &Value,
    near: &Value,
    place: Place,
    me: VatId,
) -> Result<Option<PromId>, Stop>
    ensures { Gives result inside.new (when_placed activation value.now reaction.now near.now place me inside.old) }
{
    match place {
        Place::Near => {
            let answer = react_new(inside, activation, value, reaction, near, me)?;
            Ok(Some(answer))
        }
        Place::Mine(_) | Place::FarPromise(_, _) | Place::FarObject(_, _) | Place::Gone(_) => {
            Ok(None)
        }
    }
}

/// An activation asks that an object reacts on a value: once the value is settled, or broken, the object gets the message `run` with
/// it. The reaction waits at an unsettled name, of this vat or another, and else is queued. It gives the name of the answer; none, and
/// nothing changes, where the object is not near. After a stop what was done up to there stands.
#[tactic(auto, unfolding(crate::specs::Reacting::when_resolved))]
pub fn when(
    inside: &mut Interior,
    activation: ActId,
    value: Value,
    reaction: Value,
) -> Result<Option<PromId>, Stop>
    ensures { Gives result inside.new (when_resolved activation value reaction inside.old) }
{
    let held = reaction;
    let near = inside.refs.deref(reaction);
    let place = inside.refs.place(near);
    let me = inside.refs.me();
    when_placed(inside, activation, &value, &held, &near, place, me)
}
