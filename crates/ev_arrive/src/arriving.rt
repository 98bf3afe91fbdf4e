//! Notes that arrive.

ghost use Rattle.std.specs.Prelude.{◌≡◌};
ghost use Rattle.ev_arrive.specs.Acts.{Gives};
ghost use Rattle.ev_arrive.specs.Bringing.{all_parts, part};
ghost use Rattle.ev_arrive.specs.Learning.{arrive_deliver, arrive_settled};
ghost use Rattle.ev_arrive.specs.Noting.{arrive};

use crate::asking::arrive_ask;
use crate::brought::{Brought, Heard};
use crate::delivering::{deliver, learn_message};
use crate::host::{
    Carried, Host, Incoming, Subject, learn_name, learn_subject, settle_name, value_at,
};
use crate::learning::{learn, learn_all};
use crate::opening::arrive_open;
use crate::viewing::{arrive_elsewhere, arrive_shorten};
use ev_base::{VatId, Word};
use ev_pass::Stop;

/// A message of that vat arrives: its number, its arguments and then its target come to be known here, and it is sent on here, with an
/// answer of this vat if it asks for one, of which its sender is to be told. After a stop what was done up to there stands.
#[tactic(auto, using(crate::proofs::Ends::ends), unfolding(crate::specs::Learning::arrive_deliver, crate::specs::Acts::opened_acts))]
pub fn arrive_deliver(
    host: &mut Host,
    from: VatId,
    message: Carried,
    asks: bool,
    target: Incoming,
    verb: Word,
    args: &[Brought],
) -> Result<(), Stop>
    ensures { Gives result host.new (arrive_deliver from message asks target verb (all_parts args.now) host.old) }
{
    let id = learn_message(host, message)?;
    let args = learn_all(host, from, args)?;
    let target = learn_name(host, target)?;
    deliver(host, from, id, asks, value_at(target), verb, args)
}

/// A name settled to what a note of that vat says. After a stop what was done up to there stands.
#[tactic(auto, using(crate::proofs::Ends::ends), unfolding(crate::specs::Learning::arrive_settled, crate::specs::Acts::opened_acts))]
pub fn arrive_settled(
    host: &mut Host,
    from: VatId,
    subject: Subject,
    value: &Brought,
) -> Result<(), Stop>
    ensures { Gives result host.new (arrive_settled from subject (part value.now) host.old) }
{
    let name = learn_subject(host, subject)?;
    let end = learn(host, from, value)?;
    settle_name(host, name, &end)
}

/// A note of that vat arrives. After a stop what was done up to there stands.
#[tactic(auto, unfolding(crate::specs::Noting::arrive))]
pub fn arrive(host: &mut Host, from: VatId, note: Heard) -> Result<(), Stop>
    ensures { Gives result host.new (arrive from note host.old) }
{
    match note {
        Heard::Deliver {
            message,
            asks,
            target,
            verb,
            args,
        } => arrive_deliver(host, from, message, asks, target, verb, args.as_slice()),
        Heard::Open(word, incoming) => arrive_open(host, from, word, incoming),
        Heard::Ask(provider, word) => arrive_ask(host, from, provider, word),
        Heard::Settled(subject, value) => arrive_settled(host, from, subject, &value),
        Heard::Elsewhere(subject, at) => arrive_elsewhere(host, subject, at),
        Heard::Shorten(incoming, swiss) => arrive_shorten(host, incoming, swiss),
    }
}
