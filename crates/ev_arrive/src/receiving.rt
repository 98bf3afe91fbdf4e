//! Notes that come in, whoever sent them.

ghost use Rattle.std.specs.Prelude.{◌≡◌};
ghost use Rattle.ev_arrive.specs.Acts.{Gives};
ghost use Rattle.ev_arrive.specs.Receiving.{break_back, break_cycle, break_subject, has_gift, has_number, host_by, leads_back, receive, tells_nothing, was_told};
ghost use Rattle.ev_intro.specs.Gift.{find};

use crate::arriving::arrive;
use crate::breaking::standing_now;
use crate::brought::Heard;
use crate::gifts::is_opened;
use crate::host::{Host, Subject, learn_subject, settle_name};
use crate::viewing::{draw, host_of};
use ev_base::{PromId, Value, VatId};
use ev_pass::Stop;
use ev_refs::Standing;

/// What a vat's connections and names tell of a note that comes in, besides what its inside and the gifts that it hosts tell.
#[derive(Clone, Copy)]
pub struct Sight {
    /// Of a gift that is asked for and is there: whether its name has a number for the sender, who was told of it then.
    pub numbered: bool,
    /// Of a name that settled to an object of another vat than this: whether this vat knows the gift at that vat which the name's host
    /// would provide under the next word, as a gift.
    pub known: bool,
}

/// Whether a name settled or has another name as its view, so that the vat was told what it settled to.
#[tactic(auto, unfolding(crate::specs::Receiving::was_told))]
fn was_told(host: &Host, subject: Subject) -> bool
    ensures { result ≡ was_told subject host.now.inside.refs }
{
    match subject {
        Subject::Known(name) => match standing_now(host, name) {
            Standing::Settled(_) | Standing::Viewed(_) => true,
            Standing::Unsettled | Standing::WaitsOn(_) => false,
        },
        Subject::New(_) => false,
    }
}

/// Whether a gift is there, and its name has a number for the asker.
fn has_number(host: &Host, sight: Sight, provider: VatId, word: u128) -> bool
    ensures { result ≡ has_number sight.numbered (find provider word host.now.gifts) }
{
    match host.gifts.find(provider, word) {
        Some(_) => sight.numbered,
        None => false,
    }
}

/// Whether a note tells the vat nothing new: a name was told of before, a gift was opened, or the sender was told of a gift that it asks
/// for.
#[tactic(auto, unfolding(crate::specs::Receiving::tells_nothing))]
pub fn tells_nothing(host: &Host, from: VatId, sight: Sight, note: &Heard) -> bool
    ensures { result ≡ tells_nothing from sight note.now host.now }
{
    match note {
        Heard::Open(word, _) => is_opened(host, from, *word),
        Heard::Ask(provider, word) => has_number(host, sight, *provider, *word),
        Heard::Settled(subject, _) | Heard::Elsewhere(subject, _) => was_told(host, *subject),
        Heard::Deliver { .. } | Heard::Shorten(_, _) => false,
    }
}

/// The vat that tells of a name.
#[tactic(auto, unfolding(crate::specs::Receiving::host_by))]
fn host_by(host: &Host, subject: Subject) -> VatId
    ensures { result ≡ host_by subject host.now.inside.refs }
{
    match subject {
        Subject::Known(name) => host_of(host, name),
        Subject::New(vat) => vat,
    }
}

/// Whether the vat has the gift at that vat, of that provider, which the next word names.
#[tactic(auto, unfolding(crate::specs::Receiving::has_gift))]
fn has_gift(host: &Host, sight: Sight, at: VatId, provider: VatId) -> bool
    ensures { result ≡ has_gift sight at provider host.now }
{
    if at == host.inside.refs.me() {
        return host
            .gifts
            .find(provider, host.inside.words.next())
            .is_some();
    }
    sight.known
}

/// Whether a name settled to an object of a vat that is not noticed as cut, and its view would be a gift that this vat has.
#[tactic(auto, unfolding(crate::specs::Receiving::leads_back))]
fn leads_back(host: &Host, sight: Sight, note: &Heard) -> bool
    ensures { result ≡ leads_back sight note.now host.now }
{
    match note {
        Heard::Elsewhere(subject, at) => {
            if host.inside.refs.is_noticed(*at) {
                return false;
            }
            has_gift(host, sight, *at, host_by(host, *subject))
        }
        _ => false,
    }
}

/// A name is broken `cycle`.
#[tactic(auto, unfolding(crate::specs::Receiving::break_cycle))]
fn break_cycle(host: &mut Host, name: PromId) -> Result<(), Stop>
    ensures { Gives result host.new (break_cycle name host.old) }
{
    let broken = Value::Broken(host.inside.refs.cycle());
    settle_name(host, name, &broken)
}

/// A word is drawn, and what settled is broken `cycle`.
#[tactic(auto, using(crate::proofs::Ends::ends), unfolding(crate::specs::Receiving::break_subject, crate::specs::Acts::opened_acts))]
fn break_subject(host: &mut Host, subject: Subject) -> Result<(), Stop>
    ensures { Gives result host.new (break_subject subject host.old) }
{
    let name = learn_subject(host, subject)?;
    draw(host)?;
    break_cycle(host, name)
}

/// The same of what a note says that settled elsewhere, and nothing else.
#[tactic(auto, unfolding(crate::specs::Receiving::break_back, crate::specs::Acts::give))]
fn break_back(host: &mut Host, note: &Heard) -> Result<(), Stop>
    ensures { Gives result host.new (break_back note.now host.old) }
{
    match note {
        Heard::Elsewhere(subject, _) => break_subject(host, *subject),
        _ => Ok(()),
    }
}

/// A note of that vat comes in. It arrives, but for two rules that bind notes which no honest vat sends. One that tells the vat nothing
/// new does nothing: of a name that was told of before, of a gift that was opened, or for a gift whose name the sender was told. And where
/// a name settled elsewhere and its view would be a gift that the vat has, a word is drawn and the name is broken `cycle`. After a stop
/// what was done up to there stands.
#[tactic(auto, using(crate::proofs::Received::nothing, crate::proofs::Received::back, crate::proofs::Received::on))]
pub fn receive(host: &mut Host, from: VatId, sight: Sight, note: Heard) -> Result<(), Stop>
    ensures { Gives result host.new (receive from sight note host.old) }
{
    if tells_nothing(host, from, sight, &note) {
        return Ok(());
    }
    if leads_back(host, sight, &note) {
        return break_back(host, &note);
    }
    arrive(host, from, note)
}
