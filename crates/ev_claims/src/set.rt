//! A set of gifts.

ghost use Rattle.std.specs.Prelude.{◌≡◌, [], OnErr, OnOk, length};
ghost use Rattle.ev_claims.specs.Gifts.{has_gift, with_gift};

use crate::gift::GiftId;
use ev_base::Memory;
use indexmap::IndexSet;
use std::alloc::Global;
use std::marker::Model;

/// Gifts, each once, in the order in which they came. Contracts see each by its host and its key.
pub struct GiftSet {
    gifts: IndexSet<GiftId>,
}

impl Drop for GiftSet {
    fn drop(self) {
        let Self { gifts: _gifts } = self;
    }
}

impl Model for GiftSet {
    ghost use Rattle.std.specs.Prelude.{List};
    ghost use Rattle.def_hostile.specs.Claims.{Claim};
    ghost use Rattle.ev_claims.specs.Gifts.{claims_of};

    ghost Value = { List Claim };

    ghost view = { λ s. claims_of s.gifts.keys };
}

impl GiftSet {
    /// No gifts. It takes no memory.
    pub fn new(alloc: Global) -> GiftSet
        ensures { result ≡ [] }
    {
        GiftSet {
            gifts: IndexSet::new(alloc),
        }
    }

    /// Whether that gift is among them. It takes no memory.
    pub fn contains(&self, gift: &GiftId) -> bool
        ensures { result ≡ has_gift self.now gift.now }
    {
        self.gifts.contains(gift)
    }

    /// Adds a gift, if it is not among them. A refusal leaves them as they were.
    pub fn add(&mut self, gift: &GiftId) -> Result<(), Memory>
        ensures ok { OnOk result (self.new ≡ with_gift gift.now self.old) }
        ensures err { OnErr result (self.new ≡ self.old) }
    {
        self.gifts.insert_full(*gift)?;
        Ok(())
    }

    /// How many gifts there are.
    pub fn len(&self) -> usize
        ensures { result ≡ length self.now }
    {
        self.gifts.len()
    }
}
