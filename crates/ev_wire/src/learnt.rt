//! The gifts that a vat learnt as gifts.

ghost use Rattle.std.specs.Prelude.{◌≡◌, [], OnErr, OnOk, length, option_map, slice_get};
ghost use Rattle.ev_wire.specs.Learnt.{find, key_and_name, put, put_all, put_some};

use ev_base::{Memory, PromId, VatId};
use ev_pass::Swiss;
use indexmap::IndexMap;
use std::alloc::Global;
use std::marker::Model;

/// The host of a gift, its provider, and the word under which it was provided: together the key of a gift.
#[derive(Clone, Copy, PartialEq, Eq, Hash)]
struct LearntKey {
    host: u8,
    provider: u8,
    word: u128,
}

/// The gifts that a vat learnt as gifts, with the names as which it knows them, in the order of coming. A gift that it knows by a
/// position alone is not among them.
pub struct LearntTable {
    names: IndexMap<LearntKey, u64>,
}

impl Drop for LearntTable {
    fn drop(self) {
        let Self { names: _names } = self;
    }
}

impl Model for LearntTable {
    ghost use Rattle.std.specs.Prelude.{map};
    ghost use Rattle.ev_wire.specs.Learnt.{LearntGifts};

    ghost Value = { LearntGifts };

    ghost view = { λ t. map (λ e. record { host = e.0.host; provider = e.0.provider; word = e.0.word; name = e.1 }) t.names.entries };
}

impl LearntTable {
    /// No gifts. It takes no memory.
    pub fn new(alloc: Global) -> LearntTable
        ensures { result ≡ [] }
    {
        LearntTable {
            names: IndexMap::new(alloc),
        }
    }

    /// The name of a gift. There is none exactly where the gift was not learnt. It takes no memory.
    pub fn find(&self, host: VatId, provider: VatId, word: u128) -> Option<PromId>
        ensures { result ≡ find host provider word self.now }
    {
        match self.seen(host.0, provider.0, word) {
            Some(name) => Some(PromId(name)),
            None => None,
        }
    }

    /// A gift is learnt, as that name. A refusal changes nothing.
    pub fn learn(
        &mut self,
        host: VatId,
        provider: VatId,
        word: u128,
        name: PromId,
    ) -> Result<(), Memory>
        ensures ok { OnOk result (self.new ≡ put (record { host = host; provider = provider; word = word; name = name }) self.old) }
        ensures err { OnErr result (self.new ≡ self.old) }
    {
        self.put(host.0, provider.0, word, name.0)
    }

    /// The gift at a place, in the order of coming: its host, its provider with the word, and the name as which it is known.
    pub fn entry(&self, index: usize) -> Option<(VatId, Swiss, PromId)>
        ensures { result ≡ option_map key_and_name (slice_get self.now index) }
    {
        match self.names.get_index(index) {
            Some((key, name)) => {
                let swiss = Swiss {
                    provider: VatId(key.provider),
                    word: key.word,
                };
                Some((VatId(key.host), swiss, PromId(*name)))
            }
            None => None,
        }
    }

    /// How many gifts there are.
    pub fn len(&self) -> usize
        ensures { result ≡ length self.now }
    {
        self.names.len()
    }

    /// The gift at an index of another table is learnt, if there is one.
    fn learn_at(&mut self, more: &LearntTable, index: usize) -> Result<(), Memory>
        ensures { OnOk result (self.new ≡ put_some (slice_get more.now index) self.old) }
    {
        match more.names.get_index(index) {
            Some((key, name)) => self.put(key.host, key.provider, key.word, *name),
            None => Ok(()),
        }
    }

    /// The gifts of another table are learnt, in their order.
    pub fn learn_all(&mut self, more: &LearntTable) -> Result<(), Memory>
        ensures { OnOk result (self.new ≡ put_all more.now self.old) }
    {
        for index in 0..more.len() {
            self.learn_at(more, index)?;
        }
        Ok(())
    }

    fn seen(&self, host: u8, provider: u8, word: u128) -> Option<u64>
        ensures { result ≡ find host provider word self.now }
    {
        let key = LearntKey {
            host,
            provider,
            word,
        };
        match self.names.get(&key).copied() {
            Some(name) => Some(name),
            None => None,
        }
    }

    fn put(&mut self, host: u8, provider: u8, word: u128, name: u64) -> Result<(), Memory>
        ensures ok { OnOk result (self.new ≡ put (record { host = host; provider = provider; word = word; name = name }) self.old) }
        ensures err { OnErr result (self.new ≡ self.old) }
    {
        let key = LearntKey {
            host,
            provider,
            word,
        };
        self.names.insert(key, name)?;
        Ok(())
    }
}
