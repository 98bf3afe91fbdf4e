//! How a turn ends: its answer resolves to what it gave, or is broken with what it threw.

ghost use Rattle.std.specs.Prelude.{◌≡◌};
ghost use Rattle.ev_pass.specs.Acts.{Gives};
ghost use Rattle.ev_settle.specs.Closing.{finish, resolve_answer, throw};

use crate::resolving::resolve;
use crate::sending::break_answer;
use ev_base::{ActId, PromId, TextId, Value};
use ev_heap::Happened;
use ev_pass::{Interior, Stop};

/// What is to be answered, if anything is, resolves to the value.
#[tactic(auto, unfolding(crate::specs::Closing::resolve_answer, ev_pass::specs::Acts::give))]
fn resolve_answer(inside: &mut Interior, answer: Option<PromId>, value: Value) -> Result<(), Stop>
    ensures { Gives result inside.new (resolve_answer answer value inside.old) }
{
    match answer {
        None => Ok(()),
        Some(answer) => resolve(inside, answer, value),
    }
}

/// A turn ends with a value: its last line is told, and then its answer, if it has one, resolves to the value.
#[tactic(auto, using(ev_pass::proofs::Ends::ends), unfolding(crate::specs::Closing::finish, ev_pass::specs::Acts::opened_acts))]
pub fn finish(
    inside: &mut Interior,
    activation: ActId,
    answer: Option<PromId>,
    value: &Value,
) -> Result<(), Stop>
    ensures { Gives result inside.new (finish activation answer value.now inside.old) }
{
    inside.tell(Happened::Done(activation, *value))?;
    resolve_answer(inside, answer, *value)
}

/// A turn ends with a problem: its last line is told, and then its answer, if it has one, is broken with the problem.
#[tactic(auto, using(ev_pass::proofs::Ends::ends), unfolding(crate::specs::Closing::throw, ev_pass::specs::Acts::opened_acts))]
pub fn throw(
    inside: &mut Interior,
    activation: ActId,
    answer: Option<PromId>,
    problem: TextId,
) -> Result<(), Stop>
    ensures { Gives result inside.new (throw activation answer problem inside.old) }
{
    inside.tell(Happened::Threw(activation, Value::Text(problem)))?;
    break_answer(inside, answer, problem)
}
