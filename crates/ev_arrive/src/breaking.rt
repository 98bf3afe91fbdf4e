//! Names that break with a partition.

ghost use Rattle.std.specs.Prelude.{◌≡◌};
ghost use Rattle.ev_arrive.specs.Acts.{Gives};
ghost use Rattle.ev_arrive.specs.Breaking.{break_at, break_hosted, break_name, standing_now};

use crate::host::{Host, settle_name};
use ev_base::{PromId, Value};
use ev_pass::Stop;
use ev_refs::Standing;

/// How a name stands. One that is not known did not settle.
#[tactic(auto, using(crate::proofs::Standings::stands, crate::proofs::Standings::unknown))]
pub fn standing_now(host: &Host, name: PromId) -> Standing
    ensures { result ≡ standing_now host.now.inside.refs name }
{
    if name.0 < host.inside.refs.count() {
        return host.inside.refs.standing(name);
    }
    Standing::Unsettled
}

/// A name is broken `partition`.
#[tactic(auto, unfolding(crate::specs::Breaking::break_name))]
pub(crate) fn break_name(host: &mut Host, name: PromId) -> Result<(), Stop>
    ensures { Gives result host.new (break_name name host.old) }
{
    let broken = Value::Broken(host.inside.refs.partition());
    settle_name(host, name, &broken)
}

/// A name that did not settle breaks.
#[tactic(auto, unfolding(crate::specs::Breaking::break_at, crate::specs::Breaking::break_by, crate::specs::Acts::give))]
pub(crate) fn break_at(host: &mut Host, name: PromId) -> Result<(), Stop>
    ensures { Gives result host.new (break_at name host.old) }
{
    match standing_now(host, name) {
        Standing::Settled(_) => Ok(()),
        Standing::Unsettled | Standing::WaitsOn(_) | Standing::Viewed(_) => break_name(host, name),
    }
}

/// A name that did not settle, and whose view is no other name, breaks.
#[tactic(auto, unfolding(crate::specs::Breaking::break_hosted, crate::specs::Breaking::break_hosted_by, crate::specs::Acts::give))]
pub(crate) fn break_hosted(host: &mut Host, name: PromId) -> Result<(), Stop>
    ensures { Gives result host.new (break_hosted name host.old) }
{
    match standing_now(host, name) {
        Standing::Settled(_) | Standing::Viewed(_) => Ok(()),
        Standing::Unsettled | Standing::WaitsOn(_) => break_name(host, name),
    }
}
