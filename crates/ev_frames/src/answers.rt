//! What data answers.

ghost use Rattle.std.specs.Prelude.{◌≡◌, IfOk, map};
ghost use Rattle.ev_prims.specs.declared.reply.Reply.TheVariants.{Iterates};
ghost use Rattle.ev_refs.specs.Follow.{followed};
ghost use Rattle.ev_steps.specs.Steps.{again_by, answered, call_data, evaluator, replied};
ghost use Rattle.ev_room.specs.Acts.{Gives, closed_by};
ghost use Rattle.ev_room.specs.declared.scope.Scope.{Scope as Surroundings};
ghost use Rattle.ev_frames.specs.Rest.{Goes, Nested, Replies, Stays, rest, settled};

use crate::frames::{Frames, Guard};
use crate::natives::members_from;
use crate::now::{Now, guard};
use ev_base::{ActId, Memory, Seq, Value, Word};
use ev_prims::{Reply, data_reply};
use ev_refs::Refs;
use ev_room::Program;
use ev_room::call::closed;
use ev_room::data::{call_there, make_list, problem_id, write_text};
use ev_room::exit::{Came, Exit};
use ev_room::room::{Room, tell_call};
use ev_room::scope::Scope;
use std::alloc::Global;

/// Does what data answers that does not call again.
#[tactic(auto, unfolding(ev_steps::specs::Steps::replied, ev_room::specs::Acts::give, ev_room::specs::Acts::fails, ev_room::specs::Acts::fail))]
#[inline(always)]
fn made(
    program: &Program,
    depth: u32,
    levels: Option<u128>,
    act: ActId,
    reply: &Reply,
    room: &mut Room,
) -> Result<Value, Exit>
    ensures outcome { Gives result room.new (replied (again_by program.now (evaluator program.now depth) levels) act reply.now room.old) }
{
    match reply {
        Reply::Says(value) => Ok(*value),
        Reply::Writes(text) => write_text(text.as_str(), room),
        Reply::Lists(members) => make_list(act, members.as_slice(), room),
        Reply::Iterates(_, _) => Err(Exit::Memory),
        Reply::Fails(problem) => Err(Exit::Thrown(problem_id(*problem))),
    }
}

/// The same, and the call ends.
#[tactic(auto, using(ev_room::proofs::Exits::closes))]
#[inline(always)]
fn made_closed(
    program: &Program,
    depth: u32,
    levels: Option<u128>,
    act: ActId,
    reply: &Reply,
    room: &mut Room,
) -> Result<Value, Exit>
    ensures outcome { Gives result room.new (closed_by act (replied (again_by program.now (evaluator program.now depth) levels) act reply.now room.old)) }
{
    let outcome = made(program, depth, levels, act, reply, room);
    closed(act, outcome, room)
}

/// Does what data answers, or begins to.
#[tactic(auto, using(crate::proofs::Calling::settled_gave, crate::proofs::Calling::settled_ended, crate::proofs::Rests::gone), unfolding(ev_steps::specs::Steps::replied, ev_room::specs::Acts::give, ev_room::specs::Acts::fails, ev_room::specs::Acts::fail, ev_room::specs::Acts::and_then))]
pub(crate) fn replied(
    program: &Program,
    depth: u32,
    levels: Option<u128>,
    reply: Reply,
    frames: &mut Frames,
    here: &Scope,
    room: &mut Room,
) -> Result<Now, Exit>
    requires nested { Nested frames.old here.now }
    ensures rest { Goes program.now result frames.new here.now room.new (rest program.now frames.old here.now (settled here.now (replied (again_by program.now (evaluator program.now depth) levels) here.now.act reply room.old))) }
    ensures nested { Stays result frames.new here.now }
{
    match reply {
        Reply::Iterates(object, members) => members_from(
            program, depth, levels, object, members, 0, frames, here, room,
        ),
        Reply::Says(value) => Ok(Now::Ended(Came::Gave(value))),
        Reply::Writes(text) => {
            let value = write_text(text.as_str(), room)?;
            Ok(Now::Ended(Came::Gave(value)))
        }
        Reply::Lists(members) => {
            let value = make_list(here.act, members.as_slice(), room)?;
            Ok(Now::Ended(Came::Gave(value)))
        }
        Reply::Fails(problem) => Err(Exit::Thrown(problem_id(problem))),
    }
}

/// Does what data answers to a call that does not call again, and the call ends.
#[tactic(auto, using(crate::proofs::Calling::settled_gave, crate::proofs::Calling::settled_ended, crate::proofs::Rests::gone))]
#[inline(always)]
fn said(
    program: &Program,
    depth: u32,
    levels: Option<u128>,
    reply: Reply,
    frames: &Frames,
    here: &Scope,
    room: &mut Room,
) -> Result<Now, Exit>
    requires nested { Nested frames.now here.now }
    ensures rest { Goes program.now result frames.now here.now room.new (rest program.now frames.now here.now (settled here.now (closed_by here.now.act (replied (again_by program.now (evaluator program.now depth) levels) here.now.act reply room.old)))) }
    ensures nested { Stays result frames.now here.now }
{
    let value = made_closed(program, depth, levels, here.act, &reply, room)?;
    Ok(Now::Ended(Came::Gave(value)))
}

/// A call on data begins to call again, with its members from the first.
#[tactic(auto, using(crate::proofs::Native::iterates))]
fn iterates_closed(
    program: &Program,
    depth: u32,
    levels: Option<u128>,
    object: Value,
    members: Seq<Value>,
    frames: &mut Frames,
    here: &Scope,
    room: &mut Room,
) -> Result<Now, Exit>
    requires nested { Nested frames.old here.now }
    ensures rest { Goes program.now result frames.new here.now room.new (rest program.now frames.old here.now (settled here.now (closed_by here.now.act (replied (again_by program.now (evaluator program.now depth) levels) here.now.act (Iterates object members) room.old)))) }
    ensures nested { Stays result frames.new here.now }
{
    guard(depth, Guard::Close, frames, here)?;
    members_from(
        program, depth, levels, object, members, 0, frames, here, room,
    )
}

/// Does what data answers to a call, and the call ends, or begins to.
#[inline(always)]
fn replied_closed(
    program: &Program,
    depth: u32,
    levels: Option<u128>,
    reply: Reply,
    frames: &mut Frames,
    here: &Scope,
    room: &mut Room,
) -> Result<Now, Exit>
    requires nested { Nested frames.old here.now }
    ensures rest { Goes program.now result frames.new here.now room.new (rest program.now frames.old here.now (settled here.now (closed_by here.now.act (replied (again_by program.now (evaluator program.now depth) levels) here.now.act reply room.old)))) }
    ensures nested { Stays result frames.new here.now }
{
    match reply {
        Reply::Iterates(object, members) => iterates_closed(
            program, depth, levels, object, members, frames, here, room,
        ),
        other => said(program, depth, levels, other, frames, here, room),
    }
}

/// What arguments are followed to.
fn all_followed(alloc: Global, refs: &Refs, args: &[Value]) -> Result<Seq<Value>, Memory>
    ensures { IfOk result (λ near. near ≡ map (followed refs.now) args.now) }
{
    let mut near = Seq::new(alloc);
    for arg in args {
        near.push(refs.deref(*arg))?;
    }
    Ok(near)
}

/// What data answers, and none where it or an argument does not stand in the heap, as they are followed.
#[tactic(auto, using(crate::proofs::Native::answers, crate::proofs::Native::answers_not))]
#[inline(always)]
fn reply_to(
    room: &Room,
    receiver: Value,
    verb: &Word,
    args: &[Value],
) -> Result<Option<Reply>, Memory>
    ensures { IfOk result (λ reply. Replies reply receiver verb.now args.now room.now) }
{
    let near = all_followed(room.alloc, &room.refs, args)?;
    let asked = receiver;
    if !call_there(&room.heap, asked, near.as_slice()) {
        return Ok(None);
    }
    let reply = data_reply(
        room.alloc,
        &room.heap,
        receiver,
        verb.as_str(),
        args,
        near.as_slice(),
    )?;
    Ok(Some(reply))
}

/// What data answers to a call that tells no line.
#[tactic(auto, using(crate::proofs::Native::says, crate::proofs::Native::says_not, crate::proofs::Rests::gone))]
pub(crate) fn answered(
    program: &Program,
    depth: u32,
    levels: Option<u128>,
    receiver: Value,
    verb: &Word,
    args: &[Value],
    frames: &mut Frames,
    here: &Scope,
    room: &mut Room,
) -> Result<Now, Exit>
    requires nested { Nested frames.old here.now }
    ensures rest { Goes program.now result frames.new here.now room.new (rest program.now frames.old here.now (settled here.now (answered (again_by program.now (evaluator program.now depth) levels) here.now.act receiver verb.now args.now room.old))) }
    ensures nested { Stays result frames.new here.now }
{
    match reply_to(room, receiver, verb, args)? {
        None => Err(Exit::Astray),
        Some(reply) => replied(program, depth, levels, reply, frames, here, room),
    }
}

/// What data answers to a call whose line is told.
#[tactic(auto, using(crate::proofs::Native::closes, crate::proofs::Native::closes_not, crate::proofs::Rests::gone))]
#[inline(always)]
fn answered_closed(
    program: &Program,
    depth: u32,
    levels: Option<u128>,
    receiver: Value,
    verb: &Word,
    args: &[Value],
    frames: &mut Frames,
    here: &Scope,
    room: &mut Room,
) -> Result<Now, Exit>
    requires nested { Nested frames.old here.now }
    ensures rest { Goes program.now result frames.new here.now room.new (rest program.now frames.old here.now (settled here.now (closed_by here.now.act (answered (again_by program.now (evaluator program.now depth) levels) here.now.act receiver verb.now args.now room.old)))) }
    ensures nested { Stays result frames.new here.now }
{
    match reply_to(room, receiver, verb, args)? {
        None => Err(Exit::Astray),
        Some(reply) => replied_closed(program, depth, levels, reply, frames, here, room),
    }
}

/// A call on data, as it is held and as it is followed.
#[tactic(auto, using(crate::proofs::Calling::data_told, crate::proofs::Calling::data_ends, crate::proofs::Rests::gone))]
#[inline(always)]
pub(crate) fn call_data(
    program: &Program,
    depth: u32,
    levels: Option<u128>,
    held: Value,
    receiver: Value,
    verb: &Word,
    args: &[Value],
    frames: &mut Frames,
    here: &Scope,
    room: &mut Room,
) -> Result<Now, Exit>
    requires nested { Nested frames.old here.now }
    ensures rest { Goes program.now result frames.new here.now room.new (rest program.now frames.old here.now (settled here.now (call_data (again_by program.now (evaluator program.now depth) levels) here.now.act held receiver verb.now args.now room.old))) }
    ensures nested { Stays result frames.new here.now }
{
    tell_call(here.act, held, verb, args, None, room)?;
    answered_closed(
        program, depth, levels, receiver, verb, args, frames, here, room,
    )
}
