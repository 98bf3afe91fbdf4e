//! What is left to do of the nodes that have begun.

ghost use Rattle.std.specs.Prelude.{◌≡◌, [], ◌∷◌, MatchOption, OnOk};

use ev_base::{Memory, NodeId, ObjId, Seq, SlotId, TextId, Value};
use ev_heap::GuardKind;
use ev_room::exit::Came;
use ev_room::scope::{Bound, Scope};
use ev_steps::matchers::Matcher;
use ev_steps::target::Target;
use std::alloc::Global;
use std::marker::Model;

/// What is left to do of a node that hands on what its part throws.
#[derive(Drop)]
pub enum Part {
    /// An assignment, with what its noun stood for before.
    Assign(Option<Bound>),
    /// An assignment to a slot whose guard, an object, coerces the value.
    Writes(SlotId),
    /// A pattern whose guard is evaluated, with what it binds, its specimen and its ejector.
    Guarded(Target, Value, Value),
    /// A pattern whose guard, an object, coerces the specimen, with what it binds.
    Coerced(Target, GuardKind),
    /// A definition whose ejector is evaluated, with its pattern and the expression of its value.
    DefineBy(NodeId, NodeId),
    /// A definition, with its pattern and its ejector.
    Define(NodeId, Value),
    /// What gives a value, whatever its part gives.
    Yields(Value),
    /// What gives what an expression does, whatever its part gives.
    Then(NodeId),
    /// Patterns and values, with an ejector and the place of the next.
    Binds(Seq<NodeId>, Seq<Value>, Value, usize),
    /// A pattern, a value and an ejector, where what another value gives for these is evaluated.
    Asks(NodeId, Value, Value),
    /// A pattern that is bound to what its part gives, with an ejector.
    Binding(NodeId, Value),
    /// What throws a problem, whatever its part gives.
    Fails(TextId),
    /// A match whose value is evaluated, with its pattern.
    Matching(NodeId),
    /// A call whose receiver is evaluated.
    Receiver(NodeId),
    /// A call whose receiver and first arguments are known.
    Args(NodeId, Value, Seq<Value>),
    /// An object expression whose first auditors are known, with its pattern and the expressions of all.
    Auditors(NodeId, NodeId, Seq<NodeId>, Seq<Value>),
    /// An object expression whose auditor, as it is followed, is asked, with its pattern, all auditors, the place of the next,
    /// and the stamps so far.
    Stamps(NodeId, NodeId, Value, Seq<Value>, usize, Seq<Value>),
    /// A sequence, with the number of parts that have begun.
    Sequence(NodeId, usize),
    /// An if whose test is evaluated, with its branches.
    Test(NodeId, NodeId),
    /// An if whose branch is evaluated.
    Branch,
}

/// What is left to do of a node that leaves its scope as it was, however its part ended.
#[derive(Drop)]
pub enum Guard {
    /// Nothing more.
    Alone,
    /// An escape whose body is evaluated, with its ejector and its catch.
    Escape(ObjId, Option<(NodeId, NodeId)>),
    /// A try whose body is evaluated, with its pattern and its handler.
    Try(NodeId, NodeId),
    /// A finally whose first part is evaluated, with its second.
    First(NodeId),
    /// A finally whose second part is evaluated, with how the first came to an end.
    Last(Came),
    /// An auditor that is called, with its audition.
    Audit(ObjId),
    /// A call on data or an audition in which it calls again.
    Close,
    /// An iteration over these, with how calls again are counted and the place of the next.
    Members(Option<u128>, Value, Seq<Value>, usize),
    /// A loop, with how calls again are counted and the number of turns that it may still have.
    Turns(Option<u128>, Value, u64),
}

/// A node that has begun and not ended: how many levels deep its parts may be, how many names were bound when it began,
/// and what is left to do. Or a match whose pattern is bound, with how many names were bound before it, its ejector and the pattern. Or
/// a matcher whose pattern is bound, with its ejector and its body, all matchers, the place of the next, and the message. Or the body of
/// a method, with the scope of the call.
#[derive(Drop)]
pub enum Frame {
    Part(u32, usize, Part),
    Guard(u32, usize, Guard),
    Match(usize, ObjId, NodeId),
    Case(u32, usize, ObjId, NodeId, Seq<Matcher>, usize, Value),
    Body(Scope),
}

/// The nodes that have begun and not ended. Contracts see the innermost first.
#[derive(Drop)]
pub struct Frames {
    frames: Vec<Frame>,
}

impl Model for Frames {
    ghost use Rattle.std.specs.Prelude.{List, reverse};
    ghost use Rattle.ev_frames.specs.declared.frames.Frame.{Frame};

    ghost Value = { List Frame };

    ghost view = { λ t. reverse t.frames.items };
}

impl Frames {
    /// None.
    pub fn new(alloc: Global) -> Frames
        ensures { result ≡ [] }
    {
        Frames {
            frames: Vec::new(alloc),
        }
    }

    /// One more, which is now the innermost.
    #[inline(always)]
    pub fn push(&mut self, frame: Frame) -> Result<(), Memory>
        ensures ok { OnOk result (self.new ≡ frame ∷ self.old) }
    {
        self.frames.push(frame)?;
        Ok(())
    }

    /// The innermost.
    #[inline(always)]
    pub fn pop(&mut self) -> Option<Frame>
        ensures { MatchOption result ((self.old ≡ []) × (self.new ≡ [])) (λ frame. self.old ≡ frame ∷ self.new) }
    {
        self.frames.pop()
    }
}
