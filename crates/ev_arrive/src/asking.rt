//! A gift that is asked for.

ghost use Rattle.std.specs.Prelude.{◌≡◌};
ghost use Rattle.ev_arrive.specs.Acts.{Gives, within};
ghost use Rattle.ev_arrive.specs.Arriving.{arrive_ask, break_orphan, break_unless_opened, tell_asker};
ghost use Rattle.ev_pass.specs.Delivering as delivering;

use crate::breaking::{break_at, standing_now};
use crate::gifts::{have_gift, is_opened};
use crate::host::{Host, to_tell};
use ev_base::{PromId, VatId};
use ev_pass::Stop;
use ev_refs::Standing;

/// A vat is told what a name settled to.
#[tactic(auto, using(crate::proofs::Within::inside_gives), unfolding(crate::specs::Acts::within))]
fn inform(host: &mut Host, name: PromId, vat: VatId) -> Result<(), Stop>
    ensures { Gives result host.new (within (delivering.inform name vat) host.old) }
{
    host.inside.inform(name, vat)
}

/// A name breaks, unless its gift was opened.
#[tactic(auto, unfolding(crate::specs::Arriving::break_unless_opened, crate::specs::Acts::give))]
fn break_unless_opened(host: &mut Host, name: PromId, opened: bool) -> Result<(), Stop>
    ensures { Gives result host.new (break_unless_opened name opened host.old) }
{
    if opened {
        return Ok(());
    }
    break_at(host, name)
}

/// A gift that was not opened breaks where the link with its provider is noticed as cut.
#[tactic(auto, using(crate::proofs::Noticed::orphan), unfolding(crate::specs::Arriving::break_orphan, crate::specs::Acts::give))]
fn break_orphan(host: &mut Host, provider: VatId, word: u128, name: PromId) -> Result<(), Stop>
    ensures { Gives result host.new (break_orphan provider word name host.old) }
{
    if host.inside.refs.is_noticed(provider) {
        let opened = is_opened(host, provider, word);
        return break_unless_opened(host, name, opened);
    }
    Ok(())
}

/// Who asks is told of the name of a gift: at once where it settled, and else when it settles.
#[tactic(auto, unfolding(crate::specs::Arriving::tell_asker, crate::specs::Arriving::tell_by))]
fn tell_asker(host: &mut Host, name: PromId, asker: VatId) -> Result<(), Stop>
    ensures { Gives result host.new (tell_asker name asker host.old) }
{
    match standing_now(host, name) {
        Standing::Settled(_) => inform(host, name, asker),
        Standing::Unsettled | Standing::WaitsOn(_) | Standing::Viewed(_) => {
            to_tell(host, asker, name)
        }
    }
}

/// A vat asks for a gift, which comes to be where it is absent, and is to be told of its name. After a stop what was done up to there
/// stands.
#[tactic(auto, using(crate::proofs::Ends::ends), unfolding(crate::specs::Arriving::arrive_ask, crate::specs::Acts::opened_acts))]
pub fn arrive_ask(host: &mut Host, asker: VatId, provider: VatId, word: u128) -> Result<(), Stop>
    ensures { Gives result host.new (arrive_ask asker provider word host.old) }
{
    let name = have_gift(host, provider, word)?;
    break_orphan(host, provider, word, name)?;
    tell_asker(host, name, asker)
}
