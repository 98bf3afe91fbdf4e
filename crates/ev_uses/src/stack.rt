//! The open calls of one activation.

ghost use Rattle.std.specs.Prelude.{◌≡◌, [], ◌∷◌, drop, slice_get, OnOk};

use ev_base::Memory;
use std::alloc::Global;
use std::marker::Model;

/// A call that has not ended.
#[derive(Clone, Copy)]
pub struct OpenedCall {
    /// The activation that it began, by its number at the place of the call.
    pub begun: Option<u64>,
    /// Whether it asks an audition for a guard.
    pub asks_audition: bool,
}

/// The open calls of an activation. Contracts see the innermost first.
#[derive(Drop)]
pub struct Stack {
    calls: Vec<OpenedCall>,
}

impl Model for Stack {
    ghost use Rattle.std.specs.Prelude.{List, reverse};
    ghost use Rattle.ev_uses.specs.declared.stack.OpenedCall.{OpenedCall};

    ghost Value = { List OpenedCall };

    ghost view = { λ s. reverse s.calls.items };
}

impl Stack {
    /// No call. It takes no memory.
    pub fn new(alloc: Global) -> Stack
        ensures { result ≡ [] }
    {
        Stack {
            calls: Vec::new(alloc),
        }
    }

    /// A call begins, inside those that are open.
    pub fn push(&mut self, call: OpenedCall) -> Result<(), Memory>
        ensures { OnOk result (self.new ≡ call ∷ self.old) }
    {
        self.calls.push(call)?;
        Ok(())
    }

    /// The innermost call ends, if one is open.
    pub fn pop(&mut self)
        ensures { self.new ≡ drop 1 self.old }
    {
        let _call = self.calls.pop();
    }

    /// The innermost call.
    pub fn innermost(&self) -> Option<OpenedCall>
        ensures { result ≡ slice_get self.now 0 }
    {
        self.calls.last().copied()
    }
}
