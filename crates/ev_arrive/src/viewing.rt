//! A name that settled to an object of a third vat, and its host that is asked for that object.

ghost use Rattle.std.specs.Prelude.{◌≡◌, ◌==◌};
ghost use Rattle.ev_arrive.specs.Acts.{Gives, within};
ghost use Rattle.ev_arrive.specs.Viewing.{arrive_elsewhere, arrive_shorten, ask_there, gift_there, settled_at, shorten_to, shorten_value, view_from, view_there};
ghost use Rattle.ev_pass.specs.Acts as pass;
ghost use Rattle.ev_pass.specs.Notes.{key_of};
ghost use Rattle.ev_refs.specs.Follow.{host_of};
ghost use Rattle.ev_settle.specs.Changes as changes;

use crate::breaking::break_name;
use crate::gifts::have_gift;
use crate::host::{Host, Incoming, Subject, come, learn_name, learn_subject, send_out, value_at};
use ev_base::{PromId, Value, VatId};
use ev_pass::{Note, Reference, Stop, Swiss};
use ev_refs::Place;
use ev_settle::changes;

/// The next word is drawn.
#[tactic(auto, using(crate::proofs::Within::inside_gives), unfolding(crate::specs::Acts::within))]
pub fn draw(host: &mut Host) -> Result<u128, Stop>
    ensures { Gives result host.new (within pass.draw host.old) }
{
    host.inside.draw()
}

/// A name has a gift as its view.
#[tactic(auto, using(crate::proofs::Within::inside_gives), unfolding(crate::specs::Acts::within))]
fn see(host: &mut Host, name: PromId, gift: PromId) -> Result<(), Stop>
    ensures { Gives result host.new (within (changes.see name gift) host.old) }
{
    changes::see(&mut host.inside, name, gift)
}

/// The vat that tells of a name: this one, where it is not known.
#[tactic(auto, using(crate::proofs::Standings::host_stands, crate::proofs::Standings::host_unknown))]
pub fn host_of(host: &Host, name: PromId) -> VatId
    ensures { result ≡ host_of host.now.inside.refs name }
{
    if name.0 < host.inside.refs.count() {
        return host.inside.refs.host(name);
    }
    host.inside.refs.me()
}

/// A gift at another vat comes to be known, and that vat is asked for it.
#[tactic(auto, using(crate::proofs::Ends::ends), unfolding(crate::specs::Viewing::ask_there, crate::specs::Acts::opened_acts))]
fn ask_there(host: &mut Host, provider: VatId, at: VatId, word: u128) -> Result<PromId, Stop>
    ensures { Gives result host.new (ask_there provider at word host.old) }
{
    let gift = come(host, at)?;
    send_out(
        host,
        at,
        Note::Ask(provider, Swiss { provider, word }, gift),
    )?;
    Ok(gift)
}

/// A gift at that vat, which is this one or is asked for it.
#[tactic(auto, using(crate::proofs::Views::here, crate::proofs::Views::there))]
fn gift_there(
    host: &mut Host,
    me: VatId,
    provider: VatId,
    at: VatId,
    word: u128,
) -> Result<PromId, Stop>
    ensures { Gives result host.new (gift_there me provider at word host.old) }
{
    if at.0 == me.0 {
        return have_gift(host, provider, word);
    }
    ask_there(host, provider, at, word)
}

/// The object to which a name of that host settled is asked of the host as a gift, which is the view of the name.
#[tactic(auto, using(crate::proofs::Ends::ends), unfolding(crate::specs::Viewing::view_from, crate::specs::Acts::opened_acts))]
fn view_from(host: &mut Host, me: VatId, name: PromId, from: VatId, at: VatId) -> Result<(), Stop>
    ensures { Gives result host.new (view_from me name from at host.old) }
{
    let word = draw(host)?;
    let swiss = Swiss {
        provider: from,
        word,
    };
    send_out(host, from, Note::Shorten(name, at, swiss))?;
    let gift = gift_there(host, me, from, at, word)?;
    see(host, name, gift)
}

/// The same of a name of whichever host.
#[tactic(auto, unfolding(crate::specs::Viewing::view_there))]
fn view_there(host: &mut Host, name: PromId, at: VatId) -> Result<(), Stop>
    ensures { Gives result host.new (view_there name at host.old) }
{
    let from = host_of(host, name);
    let me = host.inside.refs.me();
    view_from(host, me, name, from, at)
}

/// A name that is known settled to an object of that vat.
#[tactic(auto, using(crate::proofs::Views::gone, crate::proofs::Views::not_gone))]
fn settled_at(host: &mut Host, name: PromId, at: VatId) -> Result<(), Stop>
    ensures { Gives result host.new (settled_at name at host.old) }
{
    if host.inside.refs.is_noticed(at) {
        return break_name(host, name);
    }
    view_there(host, name, at)
}

/// A name settled to an object of that vat. The object is asked of the name's host as a gift at that vat, and the gift is the view of the
/// name; where the link with that vat is noticed as cut, the name breaks. After a stop what was done up to there stands.
#[tactic(auto, using(crate::proofs::Ends::ends), unfolding(crate::specs::Viewing::arrive_elsewhere, crate::specs::Acts::opened_acts))]
pub fn arrive_elsewhere(host: &mut Host, subject: Subject, at: VatId) -> Result<(), Stop>
    ensures { Gives result host.new (arrive_elsewhere subject at host.old) }
{
    let name = learn_subject(host, subject)?;
    settled_at(host, name, at)
}

/// What is at this place is opened as a gift, if it is an object of another vat.
#[tactic(auto, unfolding(crate::specs::Viewing::shorten_to, crate::specs::Acts::give))]
fn shorten_to(host: &mut Host, swiss: Swiss, place: Place) -> Result<(), Stop>
    ensures { Gives result host.new (shorten_to (key_of swiss) place host.old) }
{
    match place {
        Place::FarObject(at, position) => {
            send_out(host, at, Note::Open(swiss, Reference::Far(at, position)))
        }
        Place::Near | Place::Mine(_) | Place::FarPromise(_, _) | Place::Gone(_) => Ok(()),
    }
}

/// What a value follows to is opened as a gift, if it is an object of another vat.
#[tactic(auto, unfolding(crate::specs::Viewing::shorten_value))]
fn shorten_value(host: &mut Host, swiss: Swiss, value: Value) -> Result<(), Stop>
    ensures { Gives result host.new (shorten_value (key_of swiss) value host.old) }
{
    let end = host.inside.refs.deref(value);
    let place = host.inside.refs.place(end);
    shorten_to(host, swiss, place)
}

/// The object to which a name settled is wanted as a gift at its vat: it is opened as that gift, unless it is broken here.
/// After a stop what was done up to there stands.
#[tactic(auto, using(crate::proofs::Ends::ends), unfolding(crate::specs::Viewing::arrive_shorten, crate::specs::Acts::opened_acts))]
pub fn arrive_shorten(host: &mut Host, incoming: Incoming, swiss: Swiss) -> Result<(), Stop>
    ensures { Gives result host.new (arrive_shorten incoming (key_of swiss) host.old) }
{
    let known = learn_name(host, incoming)?;
    shorten_value(host, swiss, value_at(known))
}
