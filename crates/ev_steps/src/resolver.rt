//! Calls on resolvers.

ghost use Rattle.std.specs.Prelude.{◌≡◌};
ghost use Rattle.ev_steps.specs.Eventual.{call_resolver, referred, resolution, resolver_answer, resolving};
ghost use Rattle.ev_room.specs.Acts.{Gives};
ghost use Rattle.ev_settle.specs.Reacting as reacting;

use crate::lifting::lifted;
use ev_base::{ActId, PromId, TextId, Value, Word};
use ev_prims::Problem;
use ev_room::Exit;
use ev_room::call::closed;
use ev_room::data::problem_id;
use ev_room::room::{Room, tell_call};
use ev_settle::{Resolution, smash_resolver, tell_resolver};

/// The problem of a promise that is resolved a second time.
pub const ALREADY_RESOLVED: TextId = TextId(46);

/// What a resolver is asked.
#[derive(Clone, Copy)]
pub enum Resolving {
    /// To resolve its promise to this value.
    Resolves(Value),
    /// To break its promise with this problem.
    Smashes(Value),
    /// Nothing that a resolver does.
    NotAsked,
}

/// What a message asks of a resolver.
#[tactic(auto, unfolding(crate::specs::Eventual::resolving))]
fn asked_by(verb: &str, args: &[Value]) -> Resolving
    ensures { result ≡ resolving verb.now args.now }
{
    match args {
        [value] => {
            if verb == "resolve" {
                Resolving::Resolves(*value)
            } else if verb == "smash" {
                Resolving::Smashes(*value)
            } else {
                Resolving::NotAsked
            }
        }
        _ => Resolving::NotAsked,
    }
}

/// A resolver is told a value.
#[tactic(auto, using(crate::proofs::Lifts::lifts), unfolding(crate::specs::Eventual::referred))]
fn resolve_by(promise: PromId, value: Value, room: &mut Room) -> Result<Resolution, Exit>
    ensures outcome { Gives result room.new (referred (reacting.tell_resolver promise value) room.old) }
{
    lifted(tell_resolver(room, promise, value))
}

/// A resolver is told a problem.
#[tactic(auto, using(crate::proofs::Lifts::lifts), unfolding(crate::specs::Eventual::referred))]
fn smash_by(promise: PromId, value: Value, room: &mut Room) -> Result<Resolution, Exit>
    ensures outcome { Gives result room.new (referred (reacting.smash_resolver promise value) room.old) }
{
    lifted(smash_resolver(room, promise, value))
}

/// What a resolver answers, by how it ended.
#[tactic(auto, unfolding(crate::specs::Eventual::opened_eventual))]
fn resolution(ended: Resolution, room: &Room) -> Result<Value, Exit>
    ensures outcome { Gives result room.now (resolution ended room.now) }
{
    match ended {
        Resolution::Resolved => Ok(Value::Null),
        Resolution::AlreadyResolved => Err(Exit::Thrown(ALREADY_RESOLVED)),
        Resolution::BadArgument => Err(Exit::Thrown(problem_id(Problem::BadArgument))),
    }
}

/// What the resolver of a promise does that is asked so.
#[tactic(auto, using(ev_room::proofs::Exits::ends), unfolding(crate::specs::Eventual::opened_eventual))]
fn resolve_as(promise: PromId, asked: Resolving, room: &mut Room) -> Result<Value, Exit>
    ensures outcome { Gives result room.new (resolver_answer promise asked room.old) }
{
    match asked {
        Resolving::Resolves(value) => {
            let ended = resolve_by(promise, value, room)?;
            resolution(ended, room)
        }
        Resolving::Smashes(value) => {
            let ended = smash_by(promise, value, room)?;
            resolution(ended, room)
        }
        Resolving::NotAsked => Err(Exit::Thrown(problem_id(Problem::NoMethod))),
    }
}

/// What the resolver of a promise answers to a message. A promise resolves once.
pub fn resolver_answer(
    promise: PromId,
    verb: &str,
    args: &[Value],
    room: &mut Room,
) -> Result<Value, Exit>
    ensures outcome { Gives result room.new (resolver_answer promise (resolving verb.now args.now) room.old) }
{
    resolve_as(promise, asked_by(verb, args), room)
}

/// A call on the resolver of a promise, with its lines, which show the resolver as it is held.
#[tactic(auto, using(ev_room::proofs::Exits::ends, ev_room::proofs::Exits::closes), unfolding(crate::specs::Eventual::opened_eventual))]
pub fn call_resolver(
    act: ActId,
    held: Value,
    promise: PromId,
    verb: &Word,
    args: &[Value],
    room: &mut Room,
) -> Result<Value, Exit>
    ensures outcome { Gives result room.new (call_resolver act held promise verb.now args.now room.old) }
{
    tell_call(act, held, verb, args, None, room)?;
    let outcome = resolver_answer(promise, verb.as_str(), args, room);
    closed(act, outcome, room)
}
