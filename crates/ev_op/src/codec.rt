//! Operations to bytes and back.

ghost use Rattle.std.specs.Prelude.{◌≡◌, ◌≤◌, ◌++◌, List, ℕ, length, take, IfOk, IfSome};
ghost use Rattle.def_op.specs.Frames.{Operation, spelling, IsOp};
ghost use Rattle.def_op.specs.Views.{operation};
ghost use Rattle.ev_op.specs.Decoded.{decoded, found_view, HaveOneSpelling};

use crate::fault::ReadError;
use crate::reading::op_of;
use crate::writing::put_op;
use def_op::op::Op;
use ev_base::{Memory, Seq};
use std::alloc::Global;

/// The bytes of an operation. They are its one spelling, which `decode` finds, where it has one (`IsOp`): numbers of vats
/// are below 16 and those of primitives are theirs, there are at most 255 arguments, a list weighs at most 65,536 and is
/// at most 100 high, what is sent to is the receiver's, and what is told of is a promise of the sender.
pub fn encode(alloc: Global, op: &Op) -> Result<Seq<u8>, Memory>
    ensures { IfOk result (λ bytes. bytes ≡ spelling (operation op.now)) }
{
    let mut out = Vec::new(alloc);
    put_op(&mut out, op)?;
    Ok(Seq::of(out))
}

/// The operation that begins the bytes, and its length in bytes. There is none exactly where no operation's spelling
/// begins them. It takes no more time and memory than the bytes ask for, whatever counts stand in them.
pub fn decode(alloc: Global, bytes: &[u8]) -> Result<Option<(Op, u64)>, Memory>
    // What is found is an operation, and begins the bytes.
    ensures found { IfOk result (λ o. IfSome o (λ x. IsOp (operation x.0) × (x.1 ≤ length bytes.now) × (take x.1 bytes.now ≡ spelling (operation x.0)))) }
    // An operation that begins the bytes is found.
    ensures only { (op : Operation) (rest : List ℕ) → IsOp op → bytes.now ≡ spelling op ++ rest
        → IfOk result (λ o. found_view o ≡ Some (op, length (spelling op))) }
    ensures exact { IfOk result (λ o. found_view o ≡ decoded bytes.now) }
{
    found(alloc, bytes)
}

/// What begins the bytes.
fn found(alloc: Global, bytes: &[u8]) -> Result<Option<(Op, u64)>, Memory>
    ensures { IfOk result (λ o. found_view o ≡ decoded bytes.now) }
{
    match op_of(alloc, bytes) {
        Ok((op, rest)) => Ok(Some((op, bytes.len().saturating_sub(rest.len()) as u64))),
        Err(ReadError::Refused) => Ok(None),
        Err(ReadError::Memory) => Err(Memory),
    }
}

/// An operation has one spelling, no two have the same, and no spelling begins another.
pub fn one_spelling()
    ensures { HaveOneSpelling }
{}
