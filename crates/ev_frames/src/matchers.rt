//! Matchers.

ghost use Rattle.std.specs.Prelude.{◌≡◌, ◌≤◌, ◌∷◌, [], OnOk, drop, length, true, ℕ};
ghost use Rattle.def_machine.specs.Scopes.{matchers_of};
ghost use Rattle.ev_steps.specs.Steps.{evaluator, handed_over, match_all, try_matchers};
ghost use Rattle.ev_room.specs.Acts.{cut};
ghost use Rattle.ev_room.specs.declared.scope.Scope.{Scope as Surroundings};
ghost use Rattle.ev_base.specs.declared.values.Value.{Value as Held};
ghost use Rattle.ev_frames.specs.Rest.{Goes, Nested, Stays, came_to, rest};
ghost use Rattle.ev_frames.specs.declared.frames.Frame.TheVariants.{Case as CaseOf};

use crate::frames::{Frame, Frames};
use crate::now::Now;
use crate::patterns::binding;
use ev_base::{Memory, NodeId, ObjId, Seq, Value, Word};
use ev_heap::Happened;
use ev_prims::Problem;
use ev_room::Program;
use ev_room::data::problem_id;
use ev_room::ejector::{is_same, kill, new_ejector};
use ev_room::exit::{Came, Exit};
use ev_room::room::{Room, tell};
use ev_room::scope::{Scope, cut};
use ev_steps::matchers::{Matcher, matcher_at, matchers_of, message_pair};

/// A matcher has begun, whose pattern is to be bound.
#[tactic(auto, using(crate::proofs::Rests::case_nested))]
fn enter_case(
    depth: u32,
    ejector: ObjId,
    body: NodeId,
    matchers: Seq<Matcher>,
    place: usize,
    message: Value,
    frames: &mut Frames,
    here: &Scope,
) -> Result<(), Memory>
    requires { Nested frames.old here.now }
    ensures pushed { OnOk result (frames.new ≡ CaseOf depth (length here.now.nouns) ejector body matchers place message ∷ frames.old) }
    ensures nested { OnOk result (Nested frames.new here.now) }
{
    frames.push(Frame::Case(
        depth,
        here.nouns.len(),
        ejector,
        body,
        matchers,
        place,
        message,
    ))
}

/// A matcher begins.
#[tactic(auto, using(crate::proofs::Matching::case_begins, crate::proofs::Matching::ejector_ends, crate::proofs::Rests::gone))]
fn case_begins(
    program: &Program,
    depth: u32,
    matcher: Matcher,
    matchers: Seq<Matcher>,
    place: usize,
    message: Value,
    frames: &mut Frames,
    here: &mut Scope,
    room: &mut Room,
) -> Result<Now, Exit>
    requires nested { Nested frames.old here.old }
    ensures rest { Goes program.now result frames.new here.new room.new (rest program.now frames.old here.old (match_all (evaluator program.now depth) (matcher ∷ drop place matchers) message here.old room.old)) }
    ensures nested { Stays result frames.new here.new }
{
    let ejector = new_ejector(here.act, room)?;
    let told = message;
    enter_case(
        depth,
        ejector,
        matcher.body,
        matchers,
        place,
        told,
        frames,
        here,
    )?;
    binding(
        program,
        depth,
        matcher.pattern,
        message,
        Value::Obj(ejector),
        frames,
        here,
        room,
    )
}

/// The matchers are tried from a place on.
#[tactic(auto, using(crate::proofs::Matching::next_case, crate::proofs::Matching::no_case))]
fn cases_from(
    program: &Program,
    depth: u32,
    matchers: Seq<Matcher>,
    place: usize,
    message: Value,
    frames: &mut Frames,
    here: &mut Scope,
    room: &mut Room,
) -> Result<Now, Exit>
    requires nested { Nested frames.old here.old }
    ensures rest { Goes program.now result frames.new here.new room.new (rest program.now frames.old here.old (match_all (evaluator program.now depth) (drop place matchers) message here.old room.old)) }
    ensures nested { Stays result frames.new here.new }
{
    match matcher_at(matchers.as_slice(), place) {
        None => Err(Exit::Thrown(problem_id(Problem::NoMethod))),
        Some(matcher) => case_begins(
            program,
            depth,
            matcher,
            matchers,
            place + 1,
            message,
            frames,
            here,
            room,
        ),
    }
}

/// The matchers of an object that has no such method are tried on a message.
#[tactic(auto, using(crate::proofs::Matching::tries, crate::proofs::Matching::tries_none, crate::proofs::Matching::pair_ends, crate::proofs::Rests::gone))]
pub(crate) fn matchers_begin(
    program: &Program,
    depth: u32,
    members: &[NodeId],
    verb: &Word,
    args: &[Value],
    frames: &mut Frames,
    here: &mut Scope,
    room: &mut Room,
) -> Result<Now, Exit>
    requires nested { Nested frames.old here.old }
    ensures rest { Goes program.now result frames.new here.new room.new (rest program.now frames.old here.old (try_matchers (evaluator program.now depth) (matchers_of program.now members.now) verb.now args.now here.old room.old)) }
    ensures nested { Stays result frames.new here.new }
{
    let matchers = matchers_of(room.alloc, program.nodes(), members)?;
    if matchers.len() == 0 {
        return Err(Exit::Thrown(problem_id(Problem::NoMethod)));
    }
    let message = message_pair(here.act, verb, args, room)?;
    cases_from(program, depth, matchers, 0, message, frames, here, room)
}

/// A matcher left by its ejector: the next one is tried in the scope before it.
#[tactic(auto, using(crate::proofs::Matching::hands_over, crate::proofs::Matching::hand_ends, crate::proofs::Matching::cut_below, crate::proofs::Rests::gone))]
fn hand_over(
    program: &Program,
    depth: u32,
    mark: usize,
    matchers: Seq<Matcher>,
    place: usize,
    message: Value,
    value: Value,
    frames: &mut Frames,
    here: &mut Scope,
    room: &mut Room,
) -> Result<Now, Exit>
    requires nested { Nested frames.old (cut mark here.old) }
    ensures rest { (n : ℕ) → Goes program.now result frames.new here.new room.new (rest program.now frames.old (cut mark here.old) (handed_over here.old.act (match_all (evaluator program.now depth) (drop place matchers) message (cut mark here.old)) n value true room.old)) }
    ensures nested { Stays result frames.new here.new }
{
    cut(room.alloc, mark, here);
    tell(room, Happened::Got(here.act, value))?;
    cases_from(program, depth, matchers, place, message, frames, here, room)
}

/// The pattern of a matcher has come to an end. However it did, the ejector is dead after it.
#[tactic(auto, using(crate::proofs::Matching::case_gave, crate::proofs::Matching::case_threw, crate::proofs::Matching::case_other, crate::proofs::Matching::case_own, crate::proofs::Matching::case_below, crate::proofs::Matching::case_above))]
pub fn case_resumes(
    program: &Program,
    depth: u32,
    mark: usize,
    ejector: ObjId,
    body: NodeId,
    matchers: Seq<Matcher>,
    place: usize,
    message: Value,
    came: Came,
    frames: &mut Frames,
    here: &mut Scope,
    room: &mut Room,
) -> Result<Now, Exit>
    requires nested { Nested (CaseOf depth mark ejector body matchers place message ∷ frames.old) here.old }
    ensures rest { Goes program.now result frames.new here.new room.new (rest program.now (CaseOf depth mark ejector body matchers place message ∷ frames.old) here.old (came_to came here.old room.old)) }
    ensures nested { Stays result frames.new here.new }
{
    kill(ejector, room);
    match came {
        Came::Gave(_) => Ok(Now::Begin(depth, body)),
        Came::Threw(id) => Ok(Now::Ended(Came::Threw(id))),
        Came::Left(by, value) => {
            let own = is_same(by, ejector);
            if own {
                hand_over(
                    program, depth, mark, matchers, place, message, value, frames, here, room,
                )
            } else {
                Ok(Now::Ended(Came::Left(by, value)))
            }
        }
    }
}
