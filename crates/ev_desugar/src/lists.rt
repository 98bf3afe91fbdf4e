//! Lists of a few pieces.

ghost use Rattle.std.specs.Prelude.{◌≡◌, ◌∷◌, [], IfOk};

use def_kernel::Node;
use ev_base::{Memory, Seq};
use std::alloc::Global;

/// The list of this.
pub(crate) fn one(alloc: Global, a: Seq<Node>) -> Result<Seq<Seq<Node>>, Memory>
    ensures { IfOk result (λ pieces. pieces ≡ a ∷ []) }
{
    let mut pieces = Seq::new(alloc);
    pieces.push(a)?;
    Ok(pieces)
}

/// The list of these two.
pub(crate) fn two(alloc: Global, a: Seq<Node>, b: Seq<Node>) -> Result<Seq<Seq<Node>>, Memory>
    ensures { IfOk result (λ pieces. pieces ≡ a ∷ b ∷ []) }
{
    let mut pieces = Seq::new(alloc);
    pieces.push(a)?;
    pieces.push(b)?;
    Ok(pieces)
}

/// The list of these three.
pub(crate) fn three(
    alloc: Global,
    a: Seq<Node>,
    b: Seq<Node>,
    c: Seq<Node>,
) -> Result<Seq<Seq<Node>>, Memory>
    ensures { IfOk result (λ pieces. pieces ≡ a ∷ b ∷ c ∷ []) }
{
    let mut pieces = Seq::new(alloc);
    pieces.push(a)?;
    pieces.push(b)?;
    pieces.push(c)?;
    Ok(pieces)
}
