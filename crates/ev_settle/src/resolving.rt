//! What a name resolves to: it settles, or waits on another.

ghost use Rattle.std.specs.Prelude.{◌≡◌};
ghost use Rattle.ev_pass.specs.Acts.{Gives};
ghost use Rattle.ev_settle.specs.Resolving.{resolve, resolve_placed, wait_unless_cycle};

use crate::changes::wait_on;
use crate::settling::settle;
use ev_base::{PromId, Value};
use ev_pass::{Interior, Stop};
use ev_refs::Place;

/// A name waits on another, or is broken `cycle` where a chain of waits would lead back to it.
#[tactic(auto, using(crate::proofs::Ways::back, crate::proofs::Ways::on))]
fn wait_unless_cycle(inside: &mut Interior, name: PromId, other: PromId) -> Result<(), Stop>
    ensures { Gives result inside.new (wait_unless_cycle name other inside.old) }
{
    if inside.refs.leads_back(name, other) {
        let broken = Value::Broken(inside.refs.cycle());
        return settle(inside, name, &broken);
    }
    wait_on(inside, name, other)
}

/// A name resolves to a followed value at this place.
#[tactic(auto, unfolding(crate::specs::Resolving::resolve_placed))]
fn resolve_placed(
    inside: &mut Interior,
    name: PromId,
    end: &Value,
    place: Place,
) -> Result<(), Stop>
    ensures { Gives result inside.new (resolve_placed name end.now place inside.old) }
{
    match place {
        Place::Mine(other) => wait_unless_cycle(inside, name, other),
        Place::FarPromise(_, other) => wait_unless_cycle(inside, name, other),
        Place::Near | Place::FarObject(_, _) | Place::Gone(_) => settle(inside, name, end),
    }
}

/// A name resolves to a value: it waits on an unsettled name, or is broken `cycle` where a chain of waits would lead back to it, or
/// settles. After a stop what was done up to there stands.
#[tactic(auto, unfolding(crate::specs::Resolving::resolve))]
pub fn resolve(inside: &mut Interior, name: PromId, value: Value) -> Result<(), Stop>
    ensures { Gives result inside.new (resolve name value inside.old) }
{
    let end = inside.refs.deref(value);
    let place = inside.refs.place(end);
    resolve_placed(inside, name, &end, place)
}
