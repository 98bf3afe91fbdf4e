//! Messages that wait for their turn, first in first out.

ghost use Rattle.std.specs.Prelude.{◌≡◌, ◌↔◌, ◌++◌, ◌∷◌, [], IsNone, IsTrue, List, OnErr, OnOk, drop, length, slice_get};

use ev_base::Memory;
use std::alloc::Global;
use std::collections::VecDeque;
use std::marker::Model;

/// The turn queue of a vat: messages, the next one in front. Each is added and taken in a time that does not grow with their number.
#[derive(Drop)]
pub struct TurnQueue<M> {
    messages: VecDeque<M>,
}

impl<M> Model for TurnQueue<M> {
    ghost Value = { List M };

    ghost view = { λ q. q.messages.items };
}

impl<M> TurnQueue<M> {
    /// The queue in which nothing waits. It takes no memory.
    pub fn new(alloc: Global) -> TurnQueue<M>
        ensures { result ≡ [] }
    {
        TurnQueue {
            messages: VecDeque::new(alloc),
        }
    }

    /// Adds a message at the end, or refuses and leaves the queue as it was.
    pub fn push(&mut self, message: M) -> Result<(), Memory>
    where
        M: Drop,
        ensures ok { OnOk result (self.new ≡ self.old ++ message ∷ []) }
        ensures err { OnErr result (self.new ≡ self.old) }
    {
        self.messages.push_back(message)?;
        Ok(())
    }

    /// Takes the message in front, and takes no memory. None exactly where nothing waits.
    pub fn pop(&mut self) -> Option<M>
        ensures first { result ≡ slice_get self.old 0 }
        ensures rest { self.new ≡ drop 1 self.old }
        ensures none { IsNone result ↔ (self.old ≡ []) }
    {
        self.messages.pop_front()
    }

    /// How many messages wait.
    pub fn len(&self) -> usize
        ensures { result ≡ length self.now }
    {
        self.messages.len()
    }

    /// Whether none waits.
    pub fn is_empty(&self) -> bool
        ensures { IsTrue result ↔ (self.now ≡ []) }
    {
        self.messages.is_empty()
    }
}
