//! Which gifts have names, and how they print.

ghost use Rattle.std.specs.Prelude.{◌≡◌, ◌∷◌, [], OnOk};
ghost use Rattle.ev_claims.specs.Gifts.{claiming, has_gift, has_name, making, name_by, name_untold, nothing_named};
ghost use Rattle.ev_intro.specs.Word.{place};

use crate::gift::GiftId;
use crate::set::GiftSet;
use ev_base::{Memory, Name};
use ev_intro::Words;
use std::alloc::Global;
use std::marker::Model;

/// The gifts of a run that have names. A gift gets its name once: where a draw makes it, or where a frame that was injected names it first.
#[derive(Drop)]
pub struct GiftNames {
    /// What draws made.
    made: GiftSet,
    /// What frames named first.
    claims: GiftSet,
}

impl Model for GiftNames {
    ghost use Rattle.ev_claims.specs.Gifts.{Named};

    ghost Value = { Named };

    ghost view = { λ n. record { made = n.made; claims = n.claims } };
}

impl GiftNames {
    /// No gift has a name. It takes no memory.
    #[tactic(auto, unfolding(crate::specs::Gifts::nothing_named))]
    pub fn new(alloc: Global) -> GiftNames
        ensures { result ≡ nothing_named }
    {
        GiftNames {
            made: GiftSet::new(alloc),
            claims: GiftSet::new(alloc),
        }
    }

    /// Whether a frame named that gift first.
    pub fn is_claimed(&self, gift: &GiftId) -> bool
        ensures { result ≡ has_gift self.now.claims gift.now }
    {
        self.claims.contains(gift)
    }

    /// Whether that gift has a name.
    #[tactic(auto, unfolding(crate::specs::Gifts::has_name, crate::specs::Gifts::has_gift, def_hostile::specs::Made::is_named))]
    pub fn is_named(&self, gift: &GiftId) -> bool
        ensures { result ≡ has_name self.now gift.now }
    {
        self.claims.contains(gift) || self.made.contains(gift)
    }

    /// A draw made that gift.
    fn make_one(&mut self, gift: &GiftId) -> Result<(), Memory>
        ensures { OnOk result (self.new ≡ making (gift.now ∷ []) self.old) }
    {
        self.made.add(gift)
    }

    /// Draws made these gifts. After a refusal some of them may have names.
    pub fn make(&mut self, gifts: &[GiftId]) -> Result<(), Memory>
        ensures { OnOk result (self.new ≡ making gifts.now self.old) }
    {
        for gift in gifts {
            self.make_one(gift)?;
        }
        Ok(())
    }

    /// A frame names that gift, which is claimed where it has no name.
    fn claim_one(&mut self, gift: &GiftId) -> Result<(), Memory>
        ensures { OnOk result (self.new ≡ claiming (gift.now ∷ []) self.old) }
    {
        if self.is_named(gift) {
            return Ok(());
        }
        self.claims.add(gift)
    }

    /// A frame names these gifts, one after the other: each that has no name is claimed. After a refusal some of them may have names.
    pub fn claim(&mut self, gifts: &[GiftId]) -> Result<(), Memory>
        ensures { OnOk result (self.new ≡ claiming gifts.now self.old) }
    {
        for gift in gifts {
            self.claim_one(gift)?;
        }
        Ok(())
    }

    /// The name of a gift, as a line prints it that is written when these words were drawn. Of a provider that is no vat of a script, what
    /// it is beyond 16 is not looked at.
    #[tactic(auto, unfolding(crate::specs::Gifts::name_by))]
    pub fn name(&self, gift: &GiftId, words: &Words) -> Name
        ensures { result ≡ name_by (λ w. place w words.now) self.now.claims gift.now }
    {
        let plain = gift.unmarked();
        if self.claims.contains(&plain) {
            return Name::Claimed(plain.host, plain.provider, plain.word);
        }
        Name::Gift(gift.host, words.place(gift.word))
    }

    /// The name of a gift in a line that names nothing: one without a name prints by its word.
    #[tactic(auto, unfolding(crate::specs::Gifts::name_untold))]
    pub fn name_untold(&self, gift: &GiftId, words: &Words) -> Name
        ensures { result ≡ name_untold (λ w. place w words.now) self.now gift.now }
    {
        if self.is_named(gift) {
            return self.name(gift, words);
        }
        let plain = gift.unmarked();
        Name::Claimed(plain.host, plain.provider, plain.word)
    }
}
