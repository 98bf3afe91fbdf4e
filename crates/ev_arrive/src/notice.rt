//! A link that is noticed as cut.

ghost use Rattle.std.specs.Prelude.{◌≡◌, ◌==◌, ◌<◌, IfOk, Some, length, option_map, slice_get};
ghost use Rattle.ev_arrive.specs.Acts.{Gives};
ghost use Rattle.ev_arrive.specs.Breaking.{break_at, break_hosted};
ghost use Rattle.ev_arrive.specs.Noticing.{break_each, hosted, mark, notice, notice_all};

use crate::breaking::{break_at, break_hosted};
use crate::host::Host;
use ev_base::{Memory, PromId, Seq, VatId};
use ev_pass::Stop;
use ev_refs::Refs;
use std::alloc::Global;

/// The link with that vat is noticed as cut.
#[tactic(auto, unfolding(crate::specs::Noticing::mark))]
fn mark(host: &mut Host, peer: VatId) -> Result<(), Stop>
    ensures { Gives result host.new (mark peer host.old) }
{
    match host.inside.refs.mark(peer) {
        Ok(()) => Ok(()),
        Err(Memory) => Err(Stop::Memory),
    }
}

/// Whether that vat is the host of a name.
#[tactic(auto, using(crate::proofs::Hostings::tested))]
fn is_hosted(refs: &Refs, name: PromId, peer: VatId) -> bool
    requires { name < length refs.now.known }
    ensures { option_map (λ k. k.host == peer) (slice_get refs.now.known name) ≡ Some result }
{
    refs.host(name).0 == peer.0
}

/// The names of that host, in the order in which they came to be known.
#[tactic(auto, using(crate::proofs::Hostings::adds, crate::proofs::Hostings::skips, crate::proofs::Hostings::ends))]
fn hosted(alloc: Global, refs: &Refs, peer: VatId) -> Result<Seq<PromId>, Memory>
    ensures { IfOk result (λ names. names ≡ hosted peer 0 refs.now.known) }
{
    let mut names = Seq::new(alloc);
    for name in 0..refs.count() {
        if is_hosted(refs, PromId(name), peer) {
            names.push(PromId(name))?;
        }
    }
    Ok(names)
}

/// These names break, unless they settled or have another name as their view.
#[tactic(auto, using(crate::proofs::Breakings::goes, crate::proofs::Breakings::stops, crate::proofs::Breakings::done))]
fn break_all_hosted(host: &mut Host, names: &[PromId]) -> Result<(), Stop>
    ensures { Gives result host.new (break_each break_hosted names.now host.old) }
{
    for name in names {
        break_hosted(host, *name)?;
    }
    Ok(())
}

/// These names break, unless they settled.
#[tactic(auto, using(crate::proofs::Breakings::goes, crate::proofs::Breakings::stops, crate::proofs::Breakings::done))]
fn break_all(host: &mut Host, names: &[PromId]) -> Result<(), Stop>
    ensures { Gives result host.new (break_each break_at names.now host.old) }
{
    for name in names {
        break_at(host, *name)?;
    }
    Ok(())
}

/// What a notice does where it is the first of that vat.
#[tactic(auto, using(crate::proofs::Ends::ends), unfolding(crate::specs::Noticing::notice_all, crate::specs::Acts::opened_acts))]
fn notice_all(host: &mut Host, peer: VatId) -> Result<(), Stop>
    ensures { Gives result host.new (notice_all peer host.old) }
{
    mark(host, peer)?;
    let names = hosted(host.inside.alloc, &host.inside.refs, peer)?;
    break_all_hosted(host, names.as_slice())?;
    let gifts = host.gifts.provider_gone(peer)?;
    break_all(host, gifts.as_slice())
}

/// A vat notices that the link with another is cut, once: the names of that host break, in the order in which they came to be known,
/// unless they settled or have another name as their view; then the gifts that it provided and did not open. After a stop what was
/// done up to there stands.
#[tactic(auto, using(crate::proofs::Noticed::first), unfolding(crate::specs::Noticing::notice, crate::specs::Acts::give))]
pub fn notice(host: &mut Host, peer: VatId) -> Result<(), Stop>
    ensures { Gives result host.new (notice peer host.old) }
{
    if host.inside.refs.is_noticed(peer) {
        return Ok(());
    }
    notice_all(host, peer)
}
