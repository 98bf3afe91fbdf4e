//! Values in what a vat hears.

ghost use Rattle.std.specs.Prelude.{◌≡◌, ◌++◌, ◌∷◌, [], OnOk};
ghost use Rattle.def_op.specs.Views.{all_described, described};
ghost use Rattle.ev_base.specs.declared.values.Value.TheVariants as value;
ghost use Rattle.ev_arrive.specs.Bringing.{Many, all_parts, part};
ghost use Rattle.ev_wire.specs.Hearing.{Gives, Shows, fact_heard, gift_at, gift_heard, learnt_by, part_heard, part_of, parts_heard, reference_heard, text_brought, text_heard, value_of};

use crate::fault::HearFault;
use crate::learnt::LearntTable;
use crate::names::hear_name;
use crate::news::News;
use def_op::{Desc, Plain};
use ev_arrive::{Brought, Incoming};
use ev_base::{Memory, PromId, Str, TextId, Value, VatId};
use ev_pass::{Interior, Reference};
use ev_tables::Connection;

/// A text comes to be kept, with the next number.
#[tactic(auto, unfolding(crate::specs::Hearing::text_brought))]
fn bring_text(inside: &Interior, news: &mut News, text: &str) -> Result<TextId, HearFault>
    ensures { Gives result news.new (text_brought inside.now text.now news.old) }
{
    let Some(id) = inside
        .heap
        .text_count()
        .checked_add(news.texts.len() as u64)
    else {
        return Err(HearFault::Memory);
    };
    news.texts.push(Str::copy_of(inside.alloc, text)?)?;
    Ok(TextId(id))
}

/// Data.
#[tactic(auto, using(crate::proofs::Ends::ends), unfolding(crate::specs::Hearing::fact_heard, crate::specs::Hearing::text_heard, crate::specs::Hearing::opened_acts))]
fn hear_fact(inside: &Interior, news: &mut News, plain: &Plain) -> Result<Brought, HearFault>
    ensures { Shows part result news.new (fact_heard inside.now plain.now news.old) }
{
    match plain {
        Plain::Null => Ok(Brought::Plain(Value::Null)),
        Plain::Bool(truth) => Ok(Brought::Plain(Value::Bool(*truth))),
        Plain::Int(integer) => Ok(Brought::Plain(Value::Int(*integer))),
        Plain::Char(character) => Ok(Brought::Plain(Value::Char(*character))),
        Plain::Text(text) => {
            let id = bring_text(inside, news, text.as_str())?;
            Ok(Brought::Plain(Value::Text(id)))
        }
        Plain::Prim(primitive) => Ok(Brought::Plain(Value::Prim(*primitive))),
    }
}

/// A broken reference, with its problem.
#[tactic(auto, using(crate::proofs::Ends::ends), unfolding(crate::specs::Hearing::text_heard, crate::specs::Hearing::opened_acts))]
fn hear_broken(inside: &Interior, news: &mut News, problem: &str) -> Result<Brought, HearFault>
    ensures { Shows part result news.new (text_heard inside.now value.Broken problem.now news.old) }
{
    let id = bring_text(inside, news, problem)?;
    Ok(Brought::Plain(Value::Broken(id)))
}

/// What is known, as a value.
fn value_of(reference: Reference) -> Value
    ensures { result ≡ value_of reference }
{
    match reference {
        Reference::Object(object) => Value::Obj(object),
        Reference::Promise(name) => Value::Prom(name),
        Reference::Far(vat, position) => Value::Far(vat, position),
    }
}

/// A name as a value that arrives.
fn part_of(name: Incoming) -> Brought
    ensures { part result ≡ part_of name }
{
    match name {
        Incoming::Known(reference) => Brought::Plain(value_of(reference)),
        Incoming::New(vat) => Brought::New(vat),
    }
}

/// A name, as a value.
#[tactic(auto, using(crate::proofs::Ends::ends), unfolding(crate::specs::Hearing::reference_heard, crate::specs::Hearing::opened_acts))]
fn hear_reference(
    connection: &Connection,
    news: &mut News,
    desc: &Desc,
) -> Result<Brought, HearFault>
    ensures { Shows part result news.new (reference_heard connection.now (described desc.now) news.old) }
{
    match hear_name(connection, news, desc) {
        Ok(name) => Ok(part_of(name)),
        Err(fault) => Err(fault),
    }
}

/// The name of a gift that was learnt by now from this peer.
#[tactic(auto, unfolding(crate::specs::Hearing::learnt_by))]
fn learnt_by(
    connection: &Connection,
    learnt: &LearntTable,
    news: &News,
    host: VatId,
    word: u128,
) -> Option<PromId>
    ensures { result ≡ learnt_by connection.now learnt.now host word news.now }
{
    match learnt.find(host, connection.peer(), word) {
        Some(name) => Some(name),
        None => news.gifts.find(host, connection.peer(), word),
    }
}

/// A gift that was learnt as that name, or is learnt now.
#[tactic(auto, unfolding(crate::specs::Hearing::gift_at, crate::specs::Hearing::opened_acts))]
fn gift_at(
    connection: &Connection,
    news: &mut News,
    host: VatId,
    word: u128,
    learnt: Option<PromId>,
) -> Result<Brought, HearFault>
    ensures { Shows part result news.new (gift_at connection.now host word learnt news.old) }
{
    if let Some(name) = learnt {
        return Ok(Brought::Plain(Value::Prom(name)));
    }
    let Some(after) = news.known.checked_add(1) else {
        return Err(HearFault::Memory);
    };
    news.gifts
        .learn(host, connection.peer(), word, PromId(news.known))?;
    news.known = after;
    Ok(Brought::Gift(host, word))
}

/// A gift of the peer.
#[tactic(auto, unfolding(crate::specs::Hearing::gift_heard))]
fn hear_gift(
    connection: &Connection,
    learnt: &LearntTable,
    news: &mut News,
    host: VatId,
    word: u128,
) -> Result<Brought, HearFault>
    ensures { Shows part result news.new (gift_heard connection.now learnt.now host word news.old) }
{
    let name = learnt_by(connection, learnt, news, host, word);
    gift_at(connection, news, host, word, name)
}

/// A list of these members.
fn listed(members: Vec<Brought>) -> Brought
    ensures { part result ≡ Many (all_parts members.items) }
{
    Brought::List(members)
}

/// A value, inner parts first, from left to right.
#[cycle(hearing)]
#[tactic(auto, unfolding(crate::specs::Hearing::part_heard, crate::specs::Hearing::opened_acts))]
pub(crate) fn hear_value(
    inside: &Interior,
    connection: &Connection,
    learnt: &LearntTable,
    news: &mut News,
    desc: &Desc,
) -> Result<Brought, HearFault>
    ensures { Shows part result news.new (part_heard inside.now connection.now learnt.now (described desc.now) news.old) }
{
    match desc {
        Desc::Plain(plain) => hear_fact(inside, news, plain),
        Desc::ListOf(members) => {
            match hear_values(inside, connection, learnt, news, members.as_slice()) {
                Ok(members) => Ok(listed(members)),
                Err(fault) => Err(fault),
            }
        }
        Desc::Broken(problem) => hear_broken(inside, news, problem.as_str()),
        Desc::Third { host, swiss } => hear_gift(connection, learnt, news, *host, *swiss),
        Desc::YourExport(_)
        | Desc::YourAnswer(_)
        | Desc::MyExport(_)
        | Desc::MyPromise(_)
        | Desc::MyAnswer(_) => hear_reference(connection, news, desc),
    }
}

/// Values, from left to right.
#[cycle(hearing)]
pub(crate) fn hear_values(
    inside: &Interior,
    connection: &Connection,
    learnt: &LearntTable,
    news: &mut News,
    descs: &[Desc],
) -> Result<Vec<Brought>, HearFault>
    ensures { Shows (λ ps. all_parts ps.items) result news.new (parts_heard inside.now connection.now learnt.now (all_described descs.now) news.old) }
{
    let mut parts = Vec::new(inside.alloc);
    for desc in descs {
        match hear_value(inside, connection, learnt, news, desc) {
            Ok(part) => add(&mut parts, part)?,
            Err(fault) => return Err(fault),
        }
    }
    Ok(parts)
}

/// One more part, behind the others.
fn add(parts: &mut Vec<Brought>, part: Brought) -> Result<(), Memory>
    ensures { OnOk result (parts.new.items ≡ parts.old.items ++ part ∷ []) }
{
    parts.push(part)?;
    Ok(())
}
