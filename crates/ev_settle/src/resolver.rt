//! What a resolver does.

ghost use Rattle.std.specs.Prelude.{◌≡◌};
ghost use Rattle.ev_pass.specs.Acts.{Gives};
ghost use Rattle.ev_settle.specs.Reacting.{smash_resolver, smash_with, tell_resolver};

use crate::resolving::resolve;
use crate::settling::settle;
use ev_base::{PromId, Value};
use ev_pass::{Interior, Stop};

/// How a call on a resolver ends.
#[derive(Clone, Copy)]
pub enum Resolution {
    /// It answers null.
    Resolved,
    /// It throws `already resolved`, and nothing changes.
    AlreadyResolved,
    /// It throws `bad argument`, and nothing changes.
    BadArgument,
}

/// The resolver of a name is told a value: the name resolves to it, unless it did before. After a stop what was done up to there
/// stands.
#[tactic(auto, using(ev_pass::proofs::Ends::ends), unfolding(crate::specs::Reacting::tell_resolver, crate::specs::Reacting::resolved_by, ev_pass::specs::Acts::opened_acts))]
pub fn tell_resolver(inside: &mut Interior, name: PromId, value: Value) -> Result<Resolution, Stop>
    ensures { Gives result inside.new (tell_resolver name value inside.old) }
{
    if inside.refs.is_open(name) {
        resolve(inside, name, value)?;
        return Ok(Resolution::Resolved);
    }
    Ok(Resolution::AlreadyResolved)
}

/// A name is broken with what a followed value is, if it is a text.
#[tactic(auto, using(ev_pass::proofs::Ends::ends), unfolding(crate::specs::Reacting::smash_with, crate::specs::Reacting::resolved_by, ev_pass::specs::Acts::opened_acts))]
fn smash_with(inside: &mut Interior, name: PromId, end: Value) -> Result<Resolution, Stop>
    ensures { Gives result inside.new (smash_with name end inside.old) }
{
    match end {
        Value::Text(problem) => {
            if inside.refs.is_open(name) {
                settle(inside, name, &Value::Broken(problem))?;
                return Ok(Resolution::Resolved);
            }
            Ok(Resolution::AlreadyResolved)
        }
        _ => Ok(Resolution::BadArgument),
    }
}

/// The resolver of a name is told a problem, which has to be a text: the name is broken with it, unless it resolved before. After a
/// stop what was done up to there stands.
#[tactic(auto, unfolding(crate::specs::Reacting::smash_resolver))]
pub fn smash_resolver(inside: &mut Interior, name: PromId, value: Value) -> Result<Resolution, Stop>
    ensures { Gives result inside.new (smash_resolver name value inside.old) }
{
    let end = inside.refs.deref(value);
    smash_with(inside, name, end)
}
