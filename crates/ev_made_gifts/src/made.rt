//! The gifts that a step of a vat made.

ghost use Rattle.std.specs.Prelude.{◌≡◌, IfOk, List, OnOk, map};
ghost use Rattle.def_hostile.specs.Made.{made_by};
ghost use Rattle.def_machine.specs.Values.{Words};
ghost use Rattle.ev_claims.specs.Gifts.{claims_of};
ghost use Rattle.ev_made_gifts.specs.Made.{gifts_of, with_gift_of};
ghost use Rattle.ev_pass.specs.Notes.{sent};
ghost use Rattle.ev_pass.specs.Reading.{put_by};

use ev_base::{Memory, VatId};
use ev_claims::GiftId;
use ev_pass::draw::Swiss;
use ev_pass::note::Note;
use ev_pass::post::Put;
use std::alloc::Global;

/// The gift at a host under what was drawn for it.
fn gift_at(host: VatId, swiss: Swiss) -> GiftId
    ensures { result ≡ record { host = host; provider = swiss.provider; word = swiss.word } }
{
    let Swiss { provider, word } = swiss;
    GiftId {
        host,
        provider,
        word,
    }
}

/// Adds the gift that a note makes, if it makes one: that which it opens, or to which it asks to be shortened.
#[tactic(auto, unfolding(crate::specs::Made::with_gift_of))]
fn add_made(gifts: &mut Vec<GiftId>, put: &Put) -> Result<(), Memory>
    ensures { OnOk result (gifts.new.items ≡ with_gift_of gifts.old.items put.now.to put.now.note) }
{
    match &put.note {
        Note::Open(swiss, _) => gifts.push(gift_at(put.to, *swiss))?,
        Note::Shorten(_, host, swiss) => gifts.push(gift_at(*host, *swiss))?,
        _ => {}
    }
    Ok(())
}

/// The gifts that a step made, which put these notes, in order: each gets its name by the draw that made it.
pub fn gifts_made(alloc: Global, puts: &[Put]) -> Result<Vec<GiftId>, Memory>
    ensures made { (texts : List Words) → IfOk result (λ gifts. claims_of gifts.items ≡ made_by (map (put_by texts) (map sent puts.now))) }
{
    let mut gifts = Vec::new(alloc);
    for put in puts {
        add_made(&mut gifts, put)?;
    }
    Ok(gifts)
}
