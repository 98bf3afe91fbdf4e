//! Where the reading of a form stands.

ghost use Rattle.std.specs.Prelude.{◌≡◌, [], ◌∷◌, MatchOption, OnOk, option_copied, slice_get};

use crate::node::{Literal, Node};
use crate::shape::{Head, Kind};
use ev_base::{NodeId, Seq, Str};
use std::alloc::{AllocError, Global};
use std::marker::Model;

/// An item that was read.
#[derive(Drop)]
pub enum Item {
    Node(NodeId),
    /// The nodes between the brackets of a group.
    Nodes(Seq<NodeId>),
    Word(Str),
    Literal(Literal),
}

/// A form that was begun: the number of its node, its shape, and the items that stand in it so far.
#[derive(Drop)]
pub struct Frame {
    pub number: u64,
    pub head: Head,
    pub items: Seq<Item>,
}

/// A place behind `\u`: two zeros are to come, then 0 or 1, then a last digit behind a 0 or a 1.
#[derive(Clone, Copy, PartialEq, Eq)]
pub enum Place {
    First,
    Second,
    Third,
    Low,
    High,
}

/// What a digit behind `\u` leads to.
#[derive(Clone, Copy, PartialEq, Eq)]
pub enum Digit {
    More(Place),
    Made(char),
}

/// Which character is to come.
#[derive(Drop)]
pub enum Mode {
    /// The bracket of a tree.
    Opening(Kind),
    /// More of the word behind the bracket, of which this much was read.
    Heading(Kind, Str),
    /// A space or a closing bracket, behind an item.
    Behind,
    /// An item, behind a space.
    Before,
    /// A first item or the closing bracket of a group.
    Grouping,
    /// More of the word `exit`.
    Exiting(Str),
    /// More of a noun or a bare verb.
    Bare(Str),
    /// The first digit behind a `-`.
    Negative,
    /// More digits of an integer, which a `-` begins or not.
    Digits(bool, i128),
    /// More of a text, which is a verb or a literal.
    Text(bool, Str),
    TextEscape(bool, Str),
    TextNumber(bool, Str, Place),
    /// The character between `'`.
    Character,
    CharacterEscape,
    CharacterNumber(Place),
    /// The closing quote behind a character.
    CharacterEnd(char),
    /// Nothing: the form of the root was read.
    Whole,
}

/// The forms that are open. Contracts see the innermost one first.
#[derive(Drop)]
pub struct Frames {
    frames: Vec<Frame>,
}

impl Model for Frames {
    ghost use Rattle.std.specs.Prelude.{List, reverse};
    ghost use Rattle.def_kernel.specs.declared.reader.Frame.{Frame};

    ghost Value = { List Frame };

    ghost view = { λ f. reverse f.frames.items };
}

impl Frames {
    /// No form.
    pub fn new(alloc: Global) -> Frames
        ensures { result ≡ [] }
    {
        Frames {
            frames: Vec::new(alloc),
        }
    }

    /// The innermost form.
    pub fn top(&self) -> Option<&Frame>
        ensures { option_copied result ≡ slice_get self.now 0 }
    {
        self.frames.last()
    }

    /// A form is opened.
    pub fn push(&mut self, frame: Frame) -> Result<(), AllocError>
        ensures { OnOk result (self.new ≡ frame ∷ self.old) }
    {
        self.frames.push(frame)?;
        Ok(())
    }

    /// The innermost form is closed.
    pub fn pop(&mut self) -> Option<Frame>
        ensures { MatchOption result ((self.old ≡ []) × (self.new ≡ [])) (λ frame. self.old ≡ frame ∷ self.new) }
    {
        self.frames.pop()
    }
}

/// Where reading stands: the forms that are open, the nodes so far, and what is to come.
#[derive(Drop)]
pub struct State {
    pub frames: Frames,
    pub nodes: Seq<Node>,
    pub mode: Mode,
}
