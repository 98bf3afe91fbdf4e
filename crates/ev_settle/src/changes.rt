//! Single changes of what a vat knows of names.

ghost use Rattle.std.specs.Prelude.{◌≡◌};
ghost use Rattle.ev_pass.specs.Acts.{Gives};
ghost use Rattle.ev_settle.specs.Changes.{begin_view, mail, see, begin_wait, come, enqueue, hold, note_wait, wait_on};

use ev_base::{Memory, MsgId, PromId, VatId};
use ev_heap::Happened;
use ev_pass::{Interior, Stop};
use ev_refs::Message;

/// A message goes to the end of the queue.
#[tactic(auto, unfolding(crate::specs::Changes::enqueue))]
pub fn enqueue(inside: &mut Interior, message: Message) -> Result<(), Stop>
    ensures { Gives result inside.new (enqueue message inside.old) }
{
    match inside.refs.enqueue(message) {
        Ok(()) => Ok(()),
        Err(Memory) => Err(Stop::Memory),
    }
}

/// A message waits at a name, if that is known and did not settle.
#[tactic(auto, unfolding(crate::specs::Changes::hold, crate::specs::Changes::held_in))]
pub fn hold(inside: &mut Interior, name: PromId, message: Message) -> Result<(), Stop>
    ensures { Gives result inside.new (hold name message inside.old) }
{
    if name.0 < inside.refs.count() {
        return match inside.refs.hold(name, message) {
            Ok(()) => Ok(()),
            Err(Memory) => Err(Stop::Memory),
        };
    }
    Ok(())
}

/// A name of that host comes to be known, as the last.
#[tactic(auto, unfolding(crate::specs::Changes::come))]
pub fn come(inside: &mut Interior, host: VatId) -> Result<PromId, Stop>
    ensures { Gives result inside.new (come host inside.old) }
{
    match inside.refs.learn(host) {
        Ok(name) => Ok(name),
        Err(Memory) => Err(Stop::Memory),
    }
}

/// A message of another vat comes to be here, as the last.
#[tactic(auto, unfolding(crate::specs::Changes::mail))]
pub fn mail(inside: &mut Interior) -> Result<MsgId, Stop>
    ensures { Gives result inside.new (mail inside.old) }
{
    match inside.refs.mail() {
        Ok(message) => Ok(message),
        Err(Memory) => Err(Stop::Memory),
    }
}

/// A name waits on another, if it is known and did not settle.
#[tactic(auto, unfolding(crate::specs::Changes::begin_wait, crate::specs::Changes::waiting_in))]
fn begin_wait(inside: &mut Interior, name: PromId, other: PromId) -> Result<(), Stop>
    ensures { Gives result inside.new (begin_wait name other inside.old) }
{
    if name.0 < inside.refs.count() {
        inside.refs.wait_on(name, other);
    }
    Ok(())
}

/// Another name waits on a name, if that is known and did not settle. Nothing is told.
#[tactic(auto, unfolding(crate::specs::Changes::note_wait, crate::specs::Changes::awaited_in))]
pub fn note_wait(inside: &mut Interior, name: PromId, other: PromId) -> Result<(), Stop>
    ensures { Gives result inside.new (note_wait name other inside.old) }
{
    if other.0 < inside.refs.count() {
        return match inside.refs.wait(other, name) {
            Ok(()) => Ok(()),
            Err(Memory) => Err(Stop::Memory),
        };
    }
    Ok(())
}

/// A name has a gift as its view, if it is known and did not settle.
#[tactic(auto, unfolding(crate::specs::Changes::begin_view, crate::specs::Changes::viewing_in))]
fn begin_view(inside: &mut Interior, name: PromId, gift: PromId) -> Result<(), Stop>
    ensures { Gives result inside.new (begin_view name gift inside.old) }
{
    if name.0 < inside.refs.count() {
        inside.refs.see(name, gift);
    }
    Ok(())
}

/// A name has a gift as its view, on which it waits. It is told.
#[tactic(auto, using(ev_pass::proofs::Ends::ends), unfolding(crate::specs::Changes::see, ev_pass::specs::Acts::opened_acts))]
pub fn see(inside: &mut Interior, name: PromId, gift: PromId) -> Result<(), Stop>
    ensures { Gives result inside.new (see name gift inside.old) }
{
    inside.tell(Happened::View(name, gift))?;
    begin_view(inside, name, gift)?;
    note_wait(inside, name, gift)
}

/// A name waits on another, which is told.
#[tactic(auto, using(ev_pass::proofs::Ends::ends), unfolding(crate::specs::Changes::wait_on, ev_pass::specs::Acts::opened_acts))]
pub fn wait_on(inside: &mut Interior, name: PromId, other: PromId) -> Result<(), Stop>
    ensures { Gives result inside.new (wait_on name other inside.old) }
{
    inside.tell(Happened::Wait(name, other))?;
    begin_wait(inside, name, other)?;
    note_wait(inside, name, other)
}
