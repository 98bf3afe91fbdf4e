//! The single changes of what is known of a name.

ghost use Rattle.std.specs.Prelude.{◌≡◌, ◌<◌, IfSome, OnErr, OnOk, Some, length, option_map, slice_get, slice_set};
ghost use Rattle.ev_refs.specs.Changes.{seen_as, settled_as, waiters_at, waiting_on, with_held, with_reaction, with_told, with_waiting};

use crate::known::{Message, Waiters};
use crate::refs::Refs;
use ev_base::{Memory, PromId, Value, VatId};

impl Refs {
    /// A message that was sent on a name waits at it, unless the name settled.
    /// A refusal changes nothing.
    pub fn hold(&mut self, name: PromId, message: Message) -> Result<(), Memory>
        requires { name < length self.old.known }
        ensures ok { OnOk result (IfSome (slice_get self.old.known name) (λ k. self.new ≡ record self.old { known = slice_set self.old.known name (with_held message k) })) }
        ensures err { OnErr result (self.new ≡ self.old) }
    {
        self.known[name.0 as usize].hold(message)
    }

    /// Another name waits on a name, unless that settled.
    /// A refusal changes nothing.
    pub fn wait(&mut self, name: PromId, other: PromId) -> Result<(), Memory>
        requires { name < length self.old.known }
        ensures ok { OnOk result (IfSome (slice_get self.old.known name) (λ k. self.new ≡ record self.old { known = slice_set self.old.known name (with_waiting other k) })) }
        ensures err { OnErr result (self.new ≡ self.old) }
    {
        self.known[name.0 as usize].wait(other)
    }

    /// A name waits on another, unless it settled.
    pub fn wait_on(&mut self, name: PromId, other: PromId)
        requires { name < length self.old.known }
        ensures { IfSome (slice_get self.old.known name) (λ k. self.new ≡ record self.old { known = slice_set self.old.known name (waiting_on other k) }) }
    {
        self.known[name.0 as usize].wait_on(other);
    }

    /// A name has a gift as its view, unless it settled.
    pub fn see(&mut self, name: PromId, gift: PromId)
        requires { name < length self.old.known }
        ensures { IfSome (slice_get self.old.known name) (λ k. self.new ≡ record self.old { known = slice_set self.old.known name (seen_as gift k) }) }
    {
        self.known[name.0 as usize].see(gift);
    }

    /// A reaction waits on a name, unless that settled.
    /// A refusal changes nothing.
    pub fn react(&mut self, name: PromId, message: Message) -> Result<(), Memory>
        requires { name < length self.old.known }
        ensures ok { OnOk result (IfSome (slice_get self.old.known name) (λ k. self.new ≡ record self.old { known = slice_set self.old.known name (with_reaction message k) })) }
        ensures err { OnErr result (self.new ≡ self.old) }
    {
        self.known[name.0 as usize].react(message)
    }

    /// A vat is to be told of a name, once, unless the name settled.
    /// A refusal changes nothing.
    pub fn tell(&mut self, name: PromId, vat: VatId) -> Result<(), Memory>
        requires { name < length self.old.known }
        ensures ok { OnOk result (IfSome (slice_get self.old.known name) (λ k. self.new ≡ record self.old { known = slice_set self.old.known name (with_told vat k) })) }
        ensures err { OnErr result (self.new ≡ self.old) }
    {
        self.known[name.0 as usize].tell(vat)
    }

    /// A name settles, unless it did before; then what waited at it is handed out.
    pub fn settle_name(&mut self, name: PromId, value: Value) -> Option<Waiters>
        requires { name < length self.old.known }
        ensures settled { IfSome (slice_get self.old.known name) (λ k. self.new ≡ record self.old { known = slice_set self.old.known name (settled_as value k) }) }
        ensures waiters { IfSome (slice_get self.old.known name) (λ k. result ≡ waiters_at k.standing k) }
    {
        self.known[name.0 as usize].settle(self.alloc, value)
    }
}
