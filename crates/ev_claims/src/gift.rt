//! What tells a gift from all others.

ghost use Rattle.std.specs.Prelude.{◌≡◌};
ghost use Rattle.ev_claims.specs.Gifts.{unmarked};

use ev_base::VatId;

/// A gift: its host, the vat that provides it, and the number that was drawn or named for it.
#[derive(Clone, Copy, PartialEq, Eq, Hash)]
pub struct GiftId {
    pub host: VatId,
    pub provider: VatId,
    pub word: u128,
}

impl GiftId {
    /// The gift without what its provider is beyond 16.
    pub(crate) fn unmarked(&self) -> GiftId
        ensures { result ≡ unmarked self.now }
    {
        GiftId {
            host: self.host,
            provider: VatId(self.provider.0 % 16),
            word: self.word,
        }
    }
}
