//! The inside of a vat with the gifts that it hosts, and names in what it hears.

ghost use Rattle.std.specs.Prelude.{◌≡◌};
ghost use Rattle.ev_arrive.specs.Acts.{Gives, learn_name, learn_subject, value_at, within};
ghost use Rattle.ev_pass.specs.Acts as pass;
ghost use Rattle.ev_pass.specs.Notes.{noted};
ghost use Rattle.ev_settle.specs.Changes as changes;
ghost use Rattle.ev_settle.specs.Resolving as resolving;
ghost use Rattle.ev_settle.specs.Settling as settling;

use ev_base::{MsgId, PromId, Value, VatId};
use ev_intro::GiftTable;
use ev_pass::{Interior, Note, Reference, Stop};
use ev_settle::{changes, resolve, settle};

/// A vat as it hears others: its inside, and the gifts that it hosts, by provider and number.
pub struct Host {
    pub inside: Interior,
    pub gifts: GiftTable,
}

impl Drop for Host {
    fn drop(self) {
        let Self {
            inside: _inside,
            gifts: _gifts,
        } = self;
    }
}

/// A name in what a vat hears: one that it knows, or one that it comes to know, of that vat.
#[derive(Clone, Copy)]
pub enum Incoming {
    Known(Reference),
    New(VatId),
}

/// What a vat hears that settled: a name that it knows, or one that it comes to know, of that vat.
#[derive(Clone, Copy)]
pub enum Subject {
    Known(PromId),
    New(VatId),
}

/// A message that a note carries: one that the vat has had, by its number, or one that comes to be here.
#[derive(Clone, Copy)]
pub enum Carried {
    Back(MsgId),
    New,
}

/// What is known, as a value.
pub fn value_at(reference: Reference) -> Value
    ensures { result ≡ value_at reference }
{
    match reference {
        Reference::Object(object) => Value::Obj(object),
        Reference::Promise(name) => Value::Prom(name),
        Reference::Far(vat, position) => Value::Far(vat, position),
    }
}

/// A name of that vat comes to be known, as the last.
#[tactic(auto, using(crate::proofs::Within::inside_gives), unfolding(crate::specs::Acts::within))]
pub fn come(host: &mut Host, vat: VatId) -> Result<PromId, Stop>
    ensures { Gives result host.new (within (changes.come vat) host.old) }
{
    changes::come(&mut host.inside, vat)
}

/// A name that settled elsewhere is known, or comes to be known.
#[tactic(auto, unfolding(crate::specs::Acts::learn_subject, crate::specs::Acts::give))]
pub fn learn_subject(host: &mut Host, subject: Subject) -> Result<PromId, Stop>
    ensures { Gives result host.new (learn_subject subject host.old) }
{
    match subject {
        Subject::Known(name) => Ok(name),
        Subject::New(vat) => come(host, vat),
    }
}

/// A vat is to be told of a name.
#[tactic(auto, using(crate::proofs::Within::inside_gives), unfolding(crate::specs::Acts::within))]
pub(crate) fn to_tell(host: &mut Host, vat: VatId, name: PromId) -> Result<(), Stop>
    ensures { Gives result host.new (within (pass.to_tell vat name) host.old) }
{
    host.inside.to_tell(vat, name)
}

/// A note is put for that vat.
#[tactic(auto, using(crate::proofs::Within::inside_gives), unfolding(crate::specs::Acts::within))]
pub(crate) fn send_out(host: &mut Host, to: VatId, note: Note) -> Result<(), Stop>
    ensures { Gives result host.new (within (pass.send_out to (noted note)) host.old) }
{
    host.inside.send_out(to, note)
}

/// A name settles to a value, and what waits at it goes on.
#[tactic(auto, using(crate::proofs::Within::inside_gives), unfolding(crate::specs::Acts::within))]
pub fn settle_name(host: &mut Host, name: PromId, value: &Value) -> Result<(), Stop>
    ensures { Gives result host.new (within (settling.settle name value.now) host.old) }
{
    settle(&mut host.inside, name, value)
}

/// A name resolves to a value.
#[tactic(auto, using(crate::proofs::Within::inside_gives), unfolding(crate::specs::Acts::within))]
pub(crate) fn resolve_name(host: &mut Host, name: PromId, value: Value) -> Result<(), Stop>
    ensures { Gives result host.new (within (resolving.resolve name value) host.old) }
{
    resolve(&mut host.inside, name, value)
}

/// A name that was heard of is known, or comes to be known.
#[tactic(auto, using(crate::proofs::Ends::ends), unfolding(crate::specs::Acts::learn_name, crate::specs::Acts::opened_acts))]
pub fn learn_name(host: &mut Host, incoming: Incoming) -> Result<Reference, Stop>
    ensures { Gives result host.new (learn_name incoming host.old) }
{
    match incoming {
        Incoming::Known(reference) => Ok(reference),
        Incoming::New(vat) => {
            let name = come(host, vat)?;
            Ok(Reference::Promise(name))
        }
    }
}
