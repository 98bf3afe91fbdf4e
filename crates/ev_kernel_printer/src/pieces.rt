//! What is still to be written of a form.

ghost use Rattle.std.specs.Prelude.{◌≡◌, [], ◌∷◌, ◌++◌, MatchOption, OnOk};
ghost use Rattle.ev_kernel_printer.specs.Pieces.{group, items};

use ev_base::NodeId;
use std::alloc::{AllocError, Global};
use std::marker::Model;

/// A piece of a form. A part comes with the number of levels to which it is written.
#[derive(Clone, Copy)]
pub enum Piece {
    /// The form of a node, behind a space.
    Spaced(NodeId, usize),
    /// The bracket before a group, behind a space, and the form of its first node.
    Group(NodeId, usize),
    /// The verb of this call, behind a space.
    Verb(NodeId),
    /// The word before an ejector, behind a space.
    Exit,
    /// The bracket before a group of no node, behind a space.
    Open,
    /// The bracket behind a form or a group.
    Close,
}

/// The pieces that are still to be written. Contracts see the next one first.
#[derive(Drop)]
pub struct Pieces {
    pieces: Vec<Piece>,
}

impl Model for Pieces {
    ghost use Rattle.std.specs.Prelude.{List, reverse};
    ghost use Rattle.ev_kernel_printer.specs.declared.pieces.Piece.{Piece};

    ghost Value = { List Piece };

    ghost view = { λ p. reverse p.pieces.items };
}

impl Pieces {
    /// No piece.
    pub fn new(alloc: Global) -> Pieces
        ensures { result ≡ [] }
    {
        Pieces {
            pieces: Vec::new(alloc),
        }
    }

    /// A piece is to be written before the others.
    pub fn push(&mut self, piece: Piece) -> Result<(), AllocError>
        ensures { OnOk result (self.new ≡ piece ∷ self.old) }
    {
        self.pieces.push(piece)?;
        Ok(())
    }

    /// The next piece.
    pub fn pop(&mut self) -> Option<Piece>
        ensures { MatchOption result ((self.old ≡ []) × (self.new ≡ [])) (λ piece. self.old ≡ piece ∷ self.new) }
    {
        self.pieces.pop()
    }
}

/// The forms of these nodes, each behind a space, are to be written before the others.
pub(crate) fn push_items(
    pieces: &mut Pieces,
    ids: &[NodeId],
    height: usize,
) -> Result<(), AllocError>
    ensures { OnOk result (pieces.new ≡ items height ids.now ++ pieces.old) }
{
    let mut count = ids.len();
    while count > 0 {
        count -= 1;
        pieces.push(Piece::Spaced(ids[count], height))?;
    }
    Ok(())
}

/// The forms of these nodes are to be written between brackets before the others.
pub(crate) fn push_group(
    pieces: &mut Pieces,
    ids: &[NodeId],
    height: usize,
) -> Result<(), AllocError>
    ensures { OnOk result (pieces.new ≡ group height ids.now ++ pieces.old) }
{
    pieces.push(Piece::Close)?;
    match ids.split_first() {
        None => pieces.push(Piece::Open),
        Some((first, rest)) => {
            push_items(pieces, rest, height)?;
            pieces.push(Piece::Group(*first, height))
        }
    }
}
