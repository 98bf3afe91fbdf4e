//! The first line that speaks of each message in one way.

ghost use Rattle.std.specs.Prelude.{◌≡◌, ◌↔◌, IsTrue, [], MatchOption, OnOk, length, slice_get};
ghost use Rattle.ev_order.specs.Mentions.{IsAbsent, IsAdded, IsThere};

use ev_base::{Memory, Msg, VatId};
use indexmap::IndexMap;
use std::alloc::Global;
use std::marker::Model;

/// A message as a key.
#[derive(Clone, Copy, PartialEq, Eq, Hash)]
struct MessageKey {
    sender: u8,
    number: u64,
}

/// A line that speaks of a message: its number, the number of the first place that stands in it, how many arguments it
/// has, and the number of the vat where it happens, or that a note leaves.
#[derive(Clone, Copy)]
pub struct Mention {
    pub line: usize,
    pub first: usize,
    pub args: usize,
    pub vat: Option<u8>,
}

/// The first mention of each message, in the order of the lines.
pub struct Mentions {
    first: IndexMap<MessageKey, Mention>,
}

impl Drop for Mentions {
    fn drop(self) {
        let Self { first: _first } = self;
    }
}

impl Model for Mentions {
    ghost use Rattle.std.specs.Prelude.{map};
    ghost use Rattle.ev_order.specs.Mentions.{MentionList};

    ghost Value = { MentionList };

    ghost view = { λ m. map (λ e. (record { sender = e.0.sender; number = e.0.number }, e.1)) m.first.entries };
}

impl Mentions {
    /// No mentions. It takes no memory.
    pub fn new(alloc: Global) -> Mentions
        ensures { result ≡ [] }
    {
        Mentions {
            first: IndexMap::new(alloc),
        }
    }

    /// How many messages are mentioned.
    pub fn len(&self) -> usize
        ensures { result ≡ length self.now }
    {
        self.first.len()
    }

    /// Whether no message is mentioned.
    pub fn is_empty(&self) -> bool
        ensures { IsTrue result ↔ (self.now ≡ []) }
    {
        self.first.is_empty()
    }

    /// The message that is mentioned at a place in the order of the lines, and its mention.
    pub fn get(&self, number: usize) -> Option<(Msg, Mention)>
        ensures { result ≡ slice_get self.now number }
    {
        match self.first.get_index(number) {
            Some((key, mention)) => {
                let message = Msg {
                    sender: VatId(key.sender),
                    number: key.number,
                };
                Some((message, *mention))
            }
            None => None,
        }
    }

    fn seen(&self, sender: u8, number: u64) -> Option<Mention>
        ensures { MatchOption result (IsAbsent (record { sender = sender; number = number }) self.now) (λ mention. IsThere (record { sender = sender; number = number }) mention self.now) }
    {
        let key = MessageKey { sender, number };
        self.first.get(&key).copied()
    }

    /// The first mention of a message.
    pub fn find(&self, message: Msg) -> Option<Mention>
        ensures { MatchOption result (IsAbsent message self.now) (λ mention. IsThere message mention self.now) }
    {
        self.seen(message.sender.0, message.number)
    }

    fn put(&mut self, sender: u8, number: u64, mention: Mention) -> Result<(), Memory>
        ensures { OnOk result (IsAdded (record { sender = sender; number = number }) mention self.old self.new) }
    {
        let key = MessageKey { sender, number };
        if self.first.contains_key(&key) {
            return Ok(());
        }
        self.first.insert(key, mention)?;
        Ok(())
    }

    /// Adds a mention, where it is the first of its message.
    pub fn add(&mut self, message: Msg, mention: Mention) -> Result<(), Memory>
        ensures { OnOk result (IsAdded message mention self.old self.new) }
    {
        self.put(message.sender.0, message.number, mention)
    }
}
