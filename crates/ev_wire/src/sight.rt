//! What a vat's tables tell of a note that comes in.

ghost use Rattle.std.specs.Prelude.{◌≡◌, is_some};
ghost use Rattle.ev_intro.specs.Gift as gifts;
ghost use Rattle.ev_intro.specs.Word.{word};
ghost use Rattle.ev_arrive.specs.Hearing.{Sees};
ghost use Rattle.ev_arrive.specs.Receiving.{host_by};
ghost use Rattle.ev_wire.specs.Learnt.{find};
ghost use Rattle.ev_wire.specs.Sight.{gift_numbered, sight_by};

use crate::learnt::LearntTable;
use ev_arrive::viewing::host_of;
use ev_arrive::{Heard, Host, Sight, Subject};
use ev_base::{Value, VatId};
use ev_tables::{Connection, is_numbered};

/// The vat that tells of what settled.
#[tactic(auto, unfolding(ev_arrive::specs::Receiving::host_by))]
fn host_by(host: &Host, subject: Subject) -> VatId
    ensures { result ≡ host_by subject host.now.inside.refs }
{
    match subject {
        Subject::Known(name) => host_of(host, name),
        Subject::New(vat) => vat,
    }
}

/// Whether a gift that is there has a number for the peer.
fn gift_numbered(host: &Host, connection: &Connection, provider: VatId, word: u128) -> bool
    ensures { result ≡ gift_numbered (gifts.find provider word host.now.gifts) connection.now }
{
    match host.gifts.find(provider, word) {
        Some((name, _opened)) => is_numbered(connection, Value::Prom(name)),
        None => false,
    }
}

/// Whether the gift at a vat that the host of a name would provide under the next word was learnt.
fn is_learnt(host: &Host, learnt: &LearntTable, subject: Subject, at: VatId) -> bool
    ensures { result ≡ is_some (find at (host_by subject host.now.inside.refs) (word host.now.inside.words.key host.now.inside.words.count) learnt.now) }
{
    match learnt.find(at, host_by(host, subject), host.inside.words.next()) {
        Some(_name) => true,
        None => false,
    }
}

/// What `receive` of `ev_arrive` is told of a note of the peer of a connection: whether the name of the gift that is asked for has a
/// number for the peer, and whether the gift that what settled elsewhere would be seen as was learnt as a gift. It takes no memory.
#[tactic(auto, using(crate::proofs::Sights::numbered, crate::proofs::Sights::known))]
pub fn sight_of(host: &Host, connection: &Connection, learnt: &LearntTable, note: &Heard) -> Sight
    ensures { Sees (sight_by connection.now learnt.now) host.now note.now result }
{
    match note {
        Heard::Ask(provider, word) => Sight {
            numbered: gift_numbered(host, connection, *provider, *word),
            known: false,
        },
        Heard::Elsewhere(subject, at) => Sight {
            numbered: false,
            known: is_learnt(host, learnt, *subject, *at),
        },
        Heard::Deliver { .. } | Heard::Open(_, _) | Heard::Settled(_, _) | Heard::Shorten(_, _) => {
            Sight {
                numbered: false,
                known: false,
            }
        }
    }
}
