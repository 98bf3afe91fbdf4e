//! How pieces are put together: a node, and behind it its parts one behind another.

ghost use Rattle.std.specs.Prelude.{◌≡◌, ◌++◌, ◌∷◌, length, IfOk};
ghost use Rattle.ev_piece.specs.Pieces.{after, joined, optional, start_if, starts};

use def_kernel::Node;
use ev_base::{Memory, NodeId, Seq};
use std::alloc::Global;

/// The node, and behind it its parts.
pub(crate) fn headed(node: Node, mut parts: Vec<Node>) -> Result<Seq<Node>, Memory>
    ensures { IfOk result (λ piece. piece ≡ node ∷ parts.items) }
{
    parts.insert(0, node)?;
    Ok(Seq::of(parts))
}

/// Adds a part behind those that are there, and tells where it begins, counted from the node before them all.
pub(crate) fn add(parts: &mut Vec<Node>, piece: Seq<Node>) -> Result<NodeId, Memory>
    ensures { IfOk result (λ at. (at ≡ after parts.old.items) × (parts.new.items ≡ parts.old.items ++ piece)) }
{
    let at = (parts.len() as u64).checked_add(1).ok_or(Memory)?;
    let mut piece = piece.into_vec();
    parts.append(&mut piece)?;
    Ok(NodeId(at))
}

/// Adds parts, and tells where each begins.
#[tactic(auto, unfolding(crate::specs::Pieces::joined, crate::specs::Pieces::starts))]
pub(crate) fn add_all(
    alloc: Global,
    parts: &mut Vec<Node>,
    pieces: Seq<Seq<Node>>,
) -> Result<Seq<NodeId>, Memory>
    ensures { IfOk result (λ at. (at ≡ starts (length parts.old.items) pieces) × (parts.new.items ≡ parts.old.items ++ joined pieces)) }
{
    let mut at = Seq::new(alloc);
    for piece in pieces.into_vec() {
        let start = add(parts, piece)?;
        at.push(start)?;
    }
    Ok(at)
}

/// Adds a part where there is one, and tells where it begins.
#[tactic(auto, unfolding(crate::specs::Pieces::optional, crate::specs::Pieces::start_if))]
pub(crate) fn add_if(
    parts: &mut Vec<Node>,
    piece: Option<Seq<Node>>,
) -> Result<Option<NodeId>, Memory>
    ensures { IfOk result (λ at. (at ≡ start_if parts.old.items piece) × (parts.new.items ≡ parts.old.items ++ optional piece)) }
{
    match piece {
        None => Ok(None),
        Some(piece) => {
            let at = add(parts, piece)?;
            Ok(Some(at))
        }
    }
}
