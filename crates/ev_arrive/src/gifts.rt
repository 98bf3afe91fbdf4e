//! The gifts that a vat hosts.

ghost use Rattle.std.specs.Prelude.{◌≡◌, ◌↔◌, IsTrue};
ghost use Rattle.ev_arrive.specs.Acts.{Gives};
ghost use Rattle.ev_arrive.specs.Hosting.{have_by, have_gift, is_opened, keep_gift, new_gift, open_by, open_gift};

use crate::host::{Host, come};
use ev_base::{Memory, PromId, VatId};
use ev_pass::Stop;

/// A gift that is not there is kept under a name.
#[tactic(auto, unfolding(crate::specs::Hosting::keep_gift))]
fn keep_gift(host: &mut Host, provider: VatId, word: u128, name: PromId) -> Result<(), Stop>
    ensures { Gives result host.new (keep_gift provider word name host.old) }
{
    match host.gifts.accept(provider, word, name) {
        Ok(_) => Ok(()),
        Err(Memory) => Err(Stop::Memory),
    }
}

/// A new name of this vat is that of a gift.
#[tactic(auto, using(crate::proofs::Ends::ends), unfolding(crate::specs::Hosting::new_gift, crate::specs::Acts::opened_acts))]
fn new_gift(host: &mut Host, provider: VatId, word: u128) -> Result<PromId, Stop>
    ensures { Gives result host.new (new_gift provider word host.old) }
{
    let me = host.inside.refs.me();
    let name = come(host, me)?;
    keep_gift(host, provider, word, name)?;
    Ok(name)
}

/// The name of a gift, which comes to be where it is absent.
#[tactic(auto, using(crate::proofs::Absent::absent), unfolding(crate::specs::Hosting::have_gift, crate::specs::Hosting::have_by, crate::specs::Acts::give))]
pub fn have_gift(host: &mut Host, provider: VatId, word: u128) -> Result<PromId, Stop>
    ensures { Gives result host.new (have_gift provider word host.old) }
{
    match host.gifts.find(provider, word) {
        Some((name, _)) => Ok(name),
        None => new_gift(host, provider, word),
    }
}

/// A gift that is there was opened.
#[tactic(auto, unfolding(crate::specs::Hosting::open_gift, crate::specs::Hosting::open_by))]
pub fn open_gift(host: &mut Host, provider: VatId, word: u128) -> Result<(), Stop>
    ensures { Gives result host.new (open_gift provider word host.old) }
{
    match host.gifts.find(provider, word) {
        Some((name, _)) => match host.gifts.provide(provider, word, name) {
            Ok(_) => Ok(()),
            Err(Memory) => Err(Stop::Memory),
        },
        None => Ok(()),
    }
}

/// Whether a gift was opened.
#[tactic(auto, unfolding(crate::specs::Hosting::is_opened))]
pub fn is_opened(host: &Host, provider: VatId, word: u128) -> bool
    ensures { result ≡ is_opened provider word host.now.gifts }
{
    match host.gifts.find(provider, word) {
        Some((_, opened)) => opened,
        None => false,
    }
}
