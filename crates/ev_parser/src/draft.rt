//! What the reader of tokens holds: the nodes read so far, and the nodes that wait for the rest of them.

use def_syntax::{Place, Shape, Tail, Word};

/// A part of a node: the number of a node, or a token.
#[derive(Clone, Copy)]
pub enum Part {
    Tree(usize),
    Token(Word),
}

/// A node that has been read. `tallest` is the height of its highest part, or 61 where that is more.
pub struct Node {
    pub shape: Shape,
    pub first: Word,
    pub parts: Vec<Part>,
    pub tallest: u8,
}

impl Drop for Node {
    fn drop(self) {
        let Self {
            shape: _shape,
            first: _first,
            parts: _parts,
            tallest: _,
        } = self;
    }
}

/// A node that is being read.
#[derive(Drop)]
pub struct Stand {
    pub place: Place,
    pub first: Word,
    pub parts: Vec<Part>,
    pub tallest: u8,
}

/// What waits for a tree.
#[derive(Drop)]
pub enum Waiting {
    Inside(Stand),
    After(Tail),
}

/// Where a step stands.
#[derive(Drop)]
pub enum Turn {
    At(Stand),
    Have(usize),
    Moved(Stand),
    Failed,
}
