//! Nouns, calls and pairs of steps, as expansions write them.

ghost use Rattle.std.specs.Prelude.{◌≡◌, ◌∷◌, [], IfOk};
ghost use Rattle.ev_piece.specs.Pieces.{call, noun, seq};

use crate::lists::two;
use def_kernel::Node;
use ev_base::{Memory, Seq, Str};
use ev_piece::{call, noun, seq};
use std::alloc::Global;

/// The noun of this name.
pub(crate) fn named(alloc: Global, name: &str) -> Result<Seq<Node>, Memory>
    ensures { IfOk result (λ piece. piece ≡ noun name.now) }
{
    let name = Str::copy_of(alloc, name)?;
    noun(alloc, name)
}

/// The call of this verb.
pub(crate) fn ask(
    alloc: Global,
    receiver: Seq<Node>,
    verb: &str,
    args: Seq<Seq<Node>>,
) -> Result<Seq<Node>, Memory>
    ensures { IfOk result (λ piece. piece ≡ call receiver verb.now args) }
{
    let verb = Str::copy_of(alloc, verb)?;
    call(alloc, receiver, verb, args)
}

/// The call of this verb on what this name stands for.
pub(crate) fn ask_named(
    alloc: Global,
    name: &str,
    verb: &str,
    args: Seq<Seq<Node>>,
) -> Result<Seq<Node>, Memory>
    ensures { IfOk result (λ piece. piece ≡ call (noun name.now) verb.now args) }
{
    let receiver = named(alloc, name)?;
    ask(alloc, receiver, verb, args)
}

/// One step and then another.
pub(crate) fn both_steps(
    alloc: Global,
    first: Seq<Node>,
    last: Seq<Node>,
) -> Result<Seq<Node>, Memory>
    ensures { IfOk result (λ piece. piece ≡ seq (first ∷ last ∷ [])) }
{
    let steps = two(alloc, first, last)?;
    seq(alloc, steps)
}
