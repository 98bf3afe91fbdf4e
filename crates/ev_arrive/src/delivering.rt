//! A message that arrives, and a gift in what is heard.

ghost use Rattle.std.specs.Prelude.{◌≡◌, None, Some};
ghost use Rattle.ev_arrive.specs.Acts.{Gives, within};
ghost use Rattle.ev_arrive.specs.Delivering.{ask_for, deliver, learn_gift, learn_message, send_on_asked};
ghost use Rattle.ev_settle.specs.Changes as changes;
ghost use Rattle.ev_settle.specs.Settling as settling;

use crate::breaking::break_name;
use crate::host::{Carried, Host, come, send_out, to_tell};
use ev_base::{MsgId, PromId, Seq, Value, VatId, Word};
use ev_pass::{Note, Stop, Swiss};
use ev_refs::Message;
use ev_settle::changes;

/// A message of another vat comes to be here.
#[tactic(auto, using(crate::proofs::Within::inside_gives), unfolding(crate::specs::Acts::within))]
fn mail(host: &mut Host) -> Result<MsgId, Stop>
    ensures { Gives result host.new (within changes.mail host.old) }
{
    changes::mail(&mut host.inside)
}

/// A message that is here is sent on.
#[tactic(auto, using(crate::proofs::Within::inside_gives), unfolding(crate::specs::Acts::within))]
fn forward(host: &mut Host, message: Message) -> Result<(), Stop>
    ensures { Gives result host.new (within (settling.forward message) host.old) }
{
    ev_settle::forward(&mut host.inside, message)
}

/// The message that a note carries is here again, or comes to be here. It gives its number.
#[tactic(auto, unfolding(crate::specs::Delivering::learn_message, crate::specs::Acts::give))]
pub fn learn_message(host: &mut Host, carried: Carried) -> Result<MsgId, Stop>
    ensures { Gives result host.new (learn_message carried host.old) }
{
    match carried {
        Carried::Back(message) => Ok(message),
        Carried::New => mail(host),
    }
}

/// A message is sent on here with an answer of this vat, of which its sender is to be told.
#[tactic(auto, using(crate::proofs::Ends::ends), unfolding(crate::specs::Delivering::send_on_asked, crate::specs::Acts::opened_acts))]
fn send_on_asked(
    host: &mut Host,
    from: VatId,
    id: MsgId,
    target: Value,
    verb: Word,
    args: Seq<Value>,
) -> Result<(), Stop>
    ensures { Gives result host.new (send_on_asked from id target verb args host.old) }
{
    let me = host.inside.refs.me();
    let answer = come(host, me)?;
    to_tell(host, from, answer)?;
    forward(
        host,
        Message {
            id,
            target,
            verb,
            args,
            answer: Some(answer),
        },
    )
}

/// A message from that vat is here, on this value and with these arguments: it is sent on here, with an answer of this vat if it asks
/// for one, of which its sender is to be told. After a stop what was done up to there stands.
#[tactic(auto, unfolding(crate::specs::Delivering::deliver))]
pub fn deliver(
    host: &mut Host,
    from: VatId,
    id: MsgId,
    asks: bool,
    target: Value,
    verb: Word,
    args: Seq<Value>,
) -> Result<(), Stop>
    ensures { Gives result host.new (deliver from id asks target verb args host.old) }
{
    if asks {
        return send_on_asked(host, from, id, target, verb, args);
    }
    forward(
        host,
        Message {
            id,
            target,
            verb,
            args,
            answer: None,
        },
    )
}

/// A gift is asked for, or breaks where the link with its host is noticed as cut.
#[tactic(auto, using(crate::proofs::Delivers::gone, crate::proofs::Delivers::not_gone))]
fn ask_for(
    host: &mut Host,
    provider: VatId,
    at: VatId,
    word: u128,
    name: PromId,
) -> Result<(), Stop>
    ensures { Gives result host.new (ask_for provider at word name host.old) }
{
    if host.inside.refs.is_noticed(at) {
        return break_name(host, name);
    }
    send_out(
        host,
        at,
        Note::Ask(provider, Swiss { provider, word }, name),
    )
}

/// A gift at that vat, of that provider, comes to be known, and is asked for. After a stop what was done up to there stands.
#[tactic(auto, using(crate::proofs::Ends::ends), unfolding(crate::specs::Delivering::learn_gift, crate::specs::Acts::opened_acts))]
pub fn learn_gift(host: &mut Host, provider: VatId, at: VatId, word: u128) -> Result<PromId, Stop>
    ensures { Gives result host.new (learn_gift provider at word host.old) }
{
    let name = come(host, at)?;
    ask_for(host, provider, at, word, name)?;
    Ok(name)
}
