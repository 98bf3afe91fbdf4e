//! What comes next, and the frames that are pushed for what comes after it.

ghost use Rattle.std.specs.Prelude.{◌≡◌, ◌≤◌, ◌∷◌, OnOk, length};
ghost use Rattle.ev_room.specs.Acts.{cut};
ghost use Rattle.ev_room.specs.declared.scope.Scope.{Scope as Surroundings};
ghost use Rattle.ev_frames.specs.Rest.{Nested, given};
ghost use Rattle.ev_frames.specs.declared.frames.Frame.TheVariants.{Part as PartOf, Guard as GuardOf};

use crate::frames::{Frame, Frames, Guard, Part};
use ev_base::{Memory, NodeId, ObjId, TextId, Value};
use ev_room::exit::{Came, Exit};
use ev_room::scope::Scope;

/// What comes next.
#[derive(Clone, Copy)]
pub enum Now {
    /// A node begins, at most so many levels deep.
    Begin(u32, NodeId),
    /// A pattern is bound to a value with an ejector, at most so many levels deep.
    Bind(u32, NodeId, Value, Value),
    /// `run` of a value is called with a place and the member there. Calls again are counted: they stand within so many levels, or,
    /// where a turn calls, each has its levels counted anew.
    Member(u32, Option<u128>, Value, usize, Value),
    /// `run` of a value is called.
    Turn(u32, Option<u128>, Value),
    /// `run` of a value is called with a problem.
    Refuse(u32, Option<u128>, Value, TextId),
    /// A value is called with a verb and a list of arguments, as these are held.
    Calls(u32, Option<u128>, Value, Value, Value),
    /// `audit` of a value is called with an audition.
    Audit(u32, Option<u128>, Value, ObjId),
    /// The innermost part that was evaluated has come to an end.
    Ended(Came),
}

/// What came to an end at once.
#[tactic(auto, unfolding(crate::specs::Rest::given))]
pub(crate) fn given(outcome: Result<Value, Exit>) -> Result<Now, Exit>
    ensures { result ≡ given outcome }
{
    match outcome {
        Ok(value) => Ok(Now::Ended(Came::Gave(value))),
        Err(exit) => Err(exit),
    }
}

/// A node has begun, and a part of it is to be evaluated.
#[tactic(auto, using(crate::proofs::Rests::part_nested))]
#[inline(always)]
pub fn enter(depth: u32, part: Part, frames: &mut Frames, here: &Scope) -> Result<(), Memory>
    requires { Nested frames.old here.now }
    ensures pushed { OnOk result (frames.new ≡ PartOf depth (length here.now.nouns) part ∷ frames.old) }
    ensures nested { OnOk result (Nested frames.new here.now) }
{
    frames.push(Frame::Part(depth, here.nouns.len(), part))
}

/// Another part of a node is to be evaluated.
#[tactic(auto, using(crate::proofs::Again::again_nested))]
#[inline(always)]
pub fn again(
    depth: u32,
    mark: usize,
    part: Part,
    frames: &mut Frames,
    here: &Scope,
) -> Result<(), Memory>
    requires mark { mark ≤ length here.now.nouns }
    requires nested { Nested frames.old (cut mark here.now) }
    ensures pushed { OnOk result (frames.new ≡ PartOf depth mark part ∷ frames.old) }
    ensures nested { OnOk result (Nested frames.new here.now) }
{
    frames.push(Frame::Part(depth, mark, part))?;
    Ok(())
}

/// A node has begun that leaves its scope as it was, and a part of it is to be evaluated.
#[tactic(auto, using(crate::proofs::Rests::guard_nested))]
#[inline(always)]
pub fn guard(depth: u32, guard: Guard, frames: &mut Frames, here: &Scope) -> Result<(), Memory>
    requires { Nested frames.old here.now }
    ensures pushed { OnOk result (frames.new ≡ GuardOf depth (length here.now.nouns) guard ∷ frames.old) }
    ensures nested { OnOk result (Nested frames.new here.now) }
{
    frames.push(Frame::Guard(depth, here.nouns.len(), guard))
}
