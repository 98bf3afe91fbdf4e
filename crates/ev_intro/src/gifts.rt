//! The gifts of one vat.

ghost use Rattle.std.specs.Prelude.{◌≡◌, ◌↔◌, [], length, option_map, slice_get, IfOk, IsTrue, OnOk, OnErr};
ghost use Rattle.ev_intro.specs.Gift.{find, put, promise_of, provided, accepted, unopened, and_one, waiting, waiting_at, number_and_promise};

use ev_base::{Memory, PromId, Seq, VatId};
use indexmap::IndexMap;
use std::alloc::Global;
use std::marker::Model;

/// A provider and a swiss number, which are the key of a gift together.
#[derive(Clone, Copy, PartialEq, Eq, Hash)]
struct GiftKey {
    provider: u8,
    swiss: u128,
}

/// A gift's promise, and whether it is opened.
#[derive(Clone, Copy)]
struct Gift {
    promise: u64,
    is_opened: bool,
}

/// The gifts of one vat, in the order of coming.
pub struct GiftTable {
    gifts: IndexMap<GiftKey, Gift>,
}

impl Drop for GiftTable {
    fn drop(self) {
        let Self { gifts: _gifts } = self;
    }
}

impl Model for GiftTable {
    ghost use Rattle.std.specs.Prelude.{map};
    ghost use Rattle.ev_intro.specs.Gift.{Gifts};

    ghost Value = { Gifts };

    ghost view = { λ t. map (λ e. record { provider = e.0.provider; swiss = e.0.swiss; promise = e.1.promise; is_opened = e.1.is_opened }) t.gifts.entries };
}

impl GiftTable {
    /// No gifts. It takes no memory.
    pub fn new(alloc: Global) -> GiftTable
        ensures { result ≡ [] }
    {
        GiftTable {
            gifts: IndexMap::new(alloc),
        }
    }

    /// The promise of a gift, and whether it is opened. There is none exactly where the gift is absent. It takes no
    /// memory.
    pub fn find(&self, provider: VatId, swiss: u128) -> Option<(PromId, bool)>
        ensures { result ≡ find provider swiss self.now }
    {
        match self.seen(provider.0, swiss) {
            Some((promise, is_opened)) => Some((PromId(promise), is_opened)),
            None => None,
        }
    }

    /// Marks a gift as opened and gives its promise, which is `fresh` where the gift was absent. A refusal changes
    /// nothing.
    pub fn provide(&mut self, provider: VatId, swiss: u128, fresh: PromId) -> Result<PromId, Memory>
        ensures promise { IfOk result (λ promise. promise ≡ promise_of provider swiss fresh self.old) }
        ensures ok { OnOk result (self.new ≡ provided provider swiss fresh self.old) }
        ensures err { OnErr result (self.new ≡ self.old) }
    {
        let provider = provider.0;
        let promise = match self.seen(provider, swiss) {
            Some((promise, _)) => promise,
            None => fresh.0,
        };
        self.put(provider, swiss, promise, true)?;
        Ok(PromId(promise))
    }

    /// Gives the promise of a gift that is asked for, which is `fresh` where the gift was absent. A refusal changes
    /// nothing.
    pub fn accept(&mut self, provider: VatId, swiss: u128, fresh: PromId) -> Result<PromId, Memory>
        ensures promise { IfOk result (λ promise. promise ≡ promise_of provider swiss fresh self.old) }
        ensures ok { OnOk result (self.new ≡ accepted provider swiss fresh self.old) }
        ensures err { OnErr result (self.new ≡ self.old) }
    {
        let provider = provider.0;
        match self.seen(provider, swiss) {
            Some((promise, _)) => Ok(PromId(promise)),
            None => {
                let promise = fresh.0;
                self.put(provider, swiss, promise, false)?;
                Ok(PromId(promise))
            }
        }
    }

    /// The promises of the unopened gifts of a provider, in the order of coming.
    pub fn provider_gone(&self, provider: VatId) -> Result<Seq<PromId>, Memory>
        ensures { IfOk result (λ promises. promises ≡ unopened provider self.now) }
    {
        let provider = provider.0;
        let mut promises = self.no_promises();
        for index in 0..self.len() {
            self.add_waiting(provider, index, &mut promises)?;
        }
        Ok(promises)
    }

    fn no_promises(&self) -> Seq<PromId>
        ensures { result ≡ [] }
    {
        Seq::new(*self.gifts.allocator())
    }

    /// Adds the promise of the gift at an index, where it is of this provider and not opened.
    fn add_waiting(
        &self,
        provider: u8,
        index: usize,
        promises: &mut Seq<PromId>,
    ) -> Result<(), Memory>
        ensures { OnOk result (promises.new ≡ and_one promises.old (waiting_at provider self.now index)) }
    {
        if let Some(promise) = self.waiting_at(provider, index) {
            promises.push(PromId(promise))?;
        }
        Ok(())
    }

    /// The number and the promise of the gift at a place, in the order of coming.
    pub fn entry(&self, index: usize) -> Option<(u128, PromId)>
        ensures { result ≡ option_map number_and_promise (slice_get self.now index) }
    {
        match self.gifts.get_index(index) {
            Some((key, gift)) => Some((key.swiss, PromId(gift.promise))),
            None => None,
        }
    }

    /// How many gifts there are.
    pub fn len(&self) -> usize
        ensures { result ≡ length self.now }
    {
        self.gifts.len()
    }

    /// Whether there are none.
    pub fn is_empty(&self) -> bool
        ensures { IsTrue result ↔ (self.now ≡ []) }
    {
        self.len() == 0
    }

    fn seen(&self, provider: u8, swiss: u128) -> Option<(u64, bool)>
        ensures { result ≡ find provider swiss self.now }
    {
        let key = GiftKey { provider, swiss };
        match self.gifts.get(&key).copied() {
            Some(gift) => Some((gift.promise, gift.is_opened)),
            None => None,
        }
    }

    fn put(
        &mut self,
        provider: u8,
        swiss: u128,
        promise: u64,
        is_opened: bool,
    ) -> Result<(), Memory>
        ensures ok { OnOk result (self.new ≡ put (record { provider = provider; swiss = swiss; promise = promise; is_opened = is_opened }) self.old) }
        ensures err { OnErr result (self.new ≡ self.old) }
    {
        let key = GiftKey { provider, swiss };
        let gift = Gift { promise, is_opened };
        self.gifts.insert(key, gift)?;
        Ok(())
    }

    /// The promise of the gift at an index, where it is of this provider and not opened.
    fn waiting_at(&self, provider: u8, index: usize) -> Option<u64>
        ensures { result ≡ waiting_at provider self.now index }
    {
        match self.gifts.get_index(index) {
            Some((key, gift)) => waiting(provider, key, gift),
            None => None,
        }
    }
}

/// The promise of a gift, where it is of this provider and not opened.
fn waiting(provider: u8, key: &GiftKey, gift: &Gift) -> Option<u64>
    ensures { result ≡ waiting provider (record { provider = key.now.provider; swiss = key.now.swiss; promise = gift.now.promise; is_opened = gift.now.is_opened }) }
{
    if key.provider == provider && !gift.is_opened {
        Some(gift.promise)
    } else {
        None
    }
}
