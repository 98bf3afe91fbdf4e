//! A gift that is opened.

ghost use Rattle.std.specs.Prelude.{◌≡◌};
ghost use Rattle.ev_arrive.specs.Acts.{Gives};
ghost use Rattle.ev_arrive.specs.Arriving.{arrive_open};

use crate::gifts::{have_gift, open_gift};
use crate::host::{Host, Incoming, learn_name, resolve_name, value_at};
use ev_base::VatId;
use ev_pass::Stop;

/// A provider opens a gift: its name, which comes to be where it is absent, resolves to what the gift is. After a stop what was done
/// up to there stands.
#[tactic(auto, using(crate::proofs::Ends::ends), unfolding(crate::specs::Arriving::arrive_open, crate::specs::Acts::opened_acts))]
pub fn arrive_open(host: &mut Host, from: VatId, word: u128, incoming: Incoming) -> Result<(), Stop>
    ensures { Gives result host.new (arrive_open from word incoming host.old) }
{
    let end = learn_name(host, incoming)?;
    let name = have_gift(host, from, word)?;
    open_gift(host, from, word)?;
    resolve_name(host, name, value_at(end))
}
