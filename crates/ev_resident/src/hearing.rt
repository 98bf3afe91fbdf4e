//! What a frame told of numbers.

ghost use Rattle.std.specs.Prelude.{◌≡◌, ◌+◌, ℕ, List, Some, IfOk, OnOk, length, slice_get};
ghost use Rattle.def_run.specs.Numbers.{brought, carried_in};
ghost use Rattle.def_run.specs.Vats.{Member as Theirs, connection_for};
ghost use Rattle.def_machine.specs.State as machine;
ghost use Rattle.def_machine.specs.Values.{Local, Name as Called};
ghost use Rattle.ev_vat.specs.Hearing.{Brings, HeardNote};
ghost use Rattle.ev_vat.specs.Standing.{IsMember};
ghost use Rattle.ev_resident.specs.Names.{carried_mails, some_tells};
ghost use Rattle.ev_resident.specs.NamesStanding.{Says, mails_of, words_of};
ghost use Rattle.ev_resident.specs.OutcomeStanding.{NamesStand, ObjectsStand};
ghost use Rattle.ev_resident.specs.Brought.{all_learnt_tell, answer_tells, exported_name, frame_tells, import_tells, imports_tell, learnt_tells, message_tells, name_if, name_of};
ghost use Rattle.ev_ways.specs.Standing.{asks_in};

use crate::Told;
use crate::names::gift_name;
use crate::resident::Resident;
use ev_base::{Memory, Msg, Name, PromId, Value, VatId};
use ev_intro::Words;
use ev_step_lines::Table;
use ev_wire::{LearntTable, News};
use std::alloc::Global;

/// The name of what a vat holds so, by the names of its numbers. What is no reference stands for the vat's root.
fn name_of(table: &Table, value: &Value) -> Name
    ensures { result ≡ name_of table.now value.now }
{
    match value {
        Value::Obj(object) => Name::Object(table.vat(), object.0),
        Value::Prom(number) => table.name(*number),
        Value::Far(host, position) => Name::Object(*host, table.object(*host, *position)),
        _ => Name::Root(table.vat()),
    }
}

/// So does what is not there.
fn name_if(table: &Table, value: Option<Value>) -> Name
    ensures { result ≡ name_if table.now value }
{
    match value {
        Some(value) => name_of(table, &value),
        None => Name::Root(table.vat()),
    }
}

/// What a vat calls what it exported to that peer at a position.
fn exported_name(exporter: &Resident, peer: VatId, position: u64) -> Name
    ensures { result ≡ exported_name exporter.now peer position }
{
    let value = exporter.member.exported(peer, position);
    name_if(exporter.names.table(), value)
}

/// A promise that came to stand at a position is what its exporter calls so.
#[tactic(auto, unfolding(crate::specs::Brought::import_tells))]
fn tell_import(
    exporter: &Resident,
    me: VatId,
    position: u64,
    value: &Value,
    told: &mut Told,
) -> Result<(), Memory>
    ensures { OnOk result (told.new ≡ import_tells (exported_name exporter.now me position) value.now told.old) }
{
    match value {
        Value::Prom(number) => told.tell(*number, exported_name(exporter, me, position)),
        _ => Ok(()),
    }
}

/// The next position.
fn after(position: u64) -> Result<u64, Memory>
    ensures { IfOk result (λ next. next ≡ position + 1) }
{
    match position.checked_add(1) {
        Some(next) => Ok(next),
        None => Err(Memory),
    }
}

/// So are those that came to stand at positions from that one on.
fn tell_imports(
    exporter: &Resident,
    me: VatId,
    first: u64,
    values: &[Value],
    told: &mut Told,
) -> Result<(), Memory>
    ensures { OnOk result (told.new ≡ imports_tell (exported_name exporter.now me) first values.now told.old) }
{
    let mut position = first;
    for value in values {
        tell_import(exporter, me, position, value, told)?;
        let next = after(position)?;
        position = next;
    }
    Ok(())
}

/// The gift at a place was learnt.
#[tactic(auto, unfolding(crate::specs::Names::some_tells))]
fn tell_gift(
    words: &Words,
    gifts: &LearntTable,
    index: usize,
    told: &mut Told,
) -> Result<(), Memory>
    ensures { OnOk result (told.new ≡ some_tells (learnt_tells words.now) (slice_get gifts.now index) told.old) }
{
    match gifts.entry(index) {
        Some((host, swiss, number)) => told.tell(number, gift_name(host, swiss.word, words)),
        None => Ok(()),
    }
}

/// These gifts were learnt.
fn tell_gifts(words: &Words, gifts: &LearntTable, told: &mut Told) -> Result<(), Memory>
    ensures { OnOk result (told.new ≡ all_learnt_tell words.now gifts.now told.old) }
{
    for index in 0..gifts.len() {
        tell_gift(words, gifts, index, told)?;
    }
    Ok(())
}

/// The answer of a message is the vat's own, as that number.
#[tactic(auto, unfolding(crate::specs::Brought::message_tells))]
fn tell_message(
    me: VatId,
    number: PromId,
    carried: Option<Msg>,
    told: &mut Told,
) -> Result<(), Memory>
    ensures { OnOk result (told.new ≡ message_tells me number carried told.old) }
{
    match carried {
        Some(message) => told.tell(number, Name::Answer(me, message)),
        None => Ok(()),
    }
}

/// It is told where the message asks for it.
#[tactic(auto, unfolding(crate::specs::Brought::answer_tells))]
fn tell_answer(
    me: VatId,
    number: PromId,
    carried: Option<Msg>,
    asks: bool,
    told: &mut Told,
) -> Result<(), Memory>
    ensures { OnOk result (told.new ≡ answer_tells me number carried asks told.old) }
{
    if asks {
        return tell_message(me, number, carried, told);
    }
    Ok(())
}

/// All that a frame told of numbers.
fn frame_told(
    alloc: Global,
    exporter: &Resident,
    me: VatId,
    first: u64,
    news: &News,
    carried: Option<Msg>,
    asks: bool,
    words: &Words,
) -> Result<Told, Memory>
    ensures { IfOk result (λ told. told ≡ frame_tells exporter.now me first news.now carried asks words.now) }
{
    let mut told = Told::new(alloc);
    tell_imports(exporter, me, first, news.imports.as_slice(), &mut told)?;
    tell_gifts(words, &news.gifts, &mut told)?;
    tell_answer(me, PromId(news.known), carried, asks, &mut told)?;
    Ok(told)
}

/// What a frame told of numbers of the vat `me` that heard it: each promise that came to stand at a position, from the first new one on, is
/// what its exporter calls so; each gift that was learnt is that gift; and the answer that its message asks for is the next name.
pub fn told_of(
    alloc: Global,
    exporter: &Resident,
    me: VatId,
    first: u64,
    news: &News,
    carried: Option<Msg>,
    asks: bool,
    words: &Words,
) -> Result<Told, Memory>
    ensures { (ms : List Theirs) (v : ℕ) (m p : Theirs) (h : HeardNote) (n : machine.Note Called) (last : machine.Vat Local)
        → slice_get ms v ≡ Some p → IsMember p exporter.now.member → NamesStand (words_of words.now) v last p.names exporter.now.names → ObjectsStand ms v exporter.now.names.naming.objects
        → first ≡ length (connection_for v m).imports → Brings v m h news.now → mails_of (carried_mails carried) ≡ carried_in n → asks ≡ asks_in n
        → IfOk result (λ told. Says words.now told (brought ms v me n h m)) }
{
    let told = frame_told(alloc, exporter, me, first, news, carried, asks, words)?;
    Ok(told)
}
