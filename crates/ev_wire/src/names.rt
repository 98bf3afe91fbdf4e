//! Names in what a vat hears.

ghost use Rattle.std.specs.Prelude.{◌≡◌, slice_get};
ghost use Rattle.def_op.specs.Views.{described};
ghost use Rattle.ev_wire.specs.Hearing.{Gives, import_at, is_next, known, known_object, known_promise, known_value, name_heard, new_object, new_promise, object_at, promise_at};

use crate::fault::HearFault;
use crate::news::News;
use def_op::Desc;
use ev_arrive::Incoming;
use ev_base::{PromId, Value};
use ev_pass::Reference;
use ev_tables::Connection;

/// A reference.
#[tactic(auto, unfolding(crate::specs::Hearing::known_value, crate::specs::Hearing::opened_acts))]
fn known_value(news: &News, value: Value) -> Result<Incoming, HearFault>
    ensures { Gives result news.now (known_value value news.now) }
{
    match value {
        Value::Obj(object) => Ok(Incoming::Known(Reference::Object(object))),
        Value::Prom(name) => Ok(Incoming::Known(Reference::Promise(name))),
        Value::Far(vat, position) => Ok(Incoming::Known(Reference::Far(vat, position))),
        _ => Err(HearFault::Malformed),
    }
}

/// An object.
#[tactic(auto, unfolding(crate::specs::Hearing::known_object, crate::specs::Hearing::opened_acts))]
fn known_object(news: &News, value: Value) -> Result<Incoming, HearFault>
    ensures { Gives result news.now (known_object value news.now) }
{
    match value {
        Value::Obj(object) => Ok(Incoming::Known(Reference::Object(object))),
        Value::Far(vat, position) => Ok(Incoming::Known(Reference::Far(vat, position))),
        _ => Err(HearFault::Malformed),
    }
}

/// A promise.
#[tactic(auto, unfolding(crate::specs::Hearing::known_promise, crate::specs::Hearing::opened_acts))]
fn known_promise(news: &News, value: Value) -> Result<Incoming, HearFault>
    ensures { Gives result news.now (known_promise value news.now) }
{
    match value {
        Value::Prom(name) => Ok(Incoming::Known(Reference::Promise(name))),
        _ => Err(HearFault::Malformed),
    }
}

/// What an entry of the tables stands for.
#[tactic(auto, unfolding(crate::specs::Hearing::known, crate::specs::Hearing::opened_acts))]
fn known(news: &News, entry: Option<Value>) -> Result<Incoming, HearFault>
    ensures { Gives result news.now (known entry news.now) }
{
    match entry {
        Some(value) => known_value(news, value),
        None => Err(HearFault::Malformed),
    }
}

/// What stands at a position among those that came with the frame.
fn new_import(news: &News, index: usize) -> Option<Value>
    ensures { result ≡ slice_get news.now.imports index }
{
    match news.imports.as_slice().get(index) {
        Some(value) => Some(*value),
        None => None,
    }
}

/// What stands at a position by now.
#[tactic(auto, unfolding(crate::specs::Hearing::import_at))]
fn import_at(connection: &Connection, news: &News, position: u64) -> Option<Value>
    ensures { result ≡ import_at connection.now position news.now }
{
    let old = connection.next_import();
    if position < old {
        return connection.entry(&Desc::MyExport(position));
    }
    new_import(news, (position - old) as usize)
}

/// Whether a position is the next one.
#[tactic(auto, unfolding(crate::specs::Hearing::is_next))]
fn is_next(connection: &Connection, news: &News, position: u64) -> bool
    ensures { result ≡ is_next connection.now position news.now }
{
    let old = connection.next_import();
    if position < old {
        return false;
    }
    position - old == news.imports.len() as u64
}

/// An object comes to stand at the next position.
#[tactic(auto, unfolding(crate::specs::Hearing::new_object))]
fn new_object(
    connection: &Connection,
    news: &mut News,
    position: u64,
) -> Result<Incoming, HearFault>
    ensures { Gives result news.new (new_object connection.now position news.old) }
{
    let peer = connection.peer();
    news.imports.push(Value::Far(peer, position))?;
    Ok(Incoming::Known(Reference::Far(peer, position)))
}

/// A promise comes to stand at the next position, and to be known.
#[tactic(auto, unfolding(crate::specs::Hearing::new_promise))]
fn new_promise(connection: &Connection, news: &mut News) -> Result<Incoming, HearFault>
    ensures { Gives result news.new (new_promise connection.now news.old) }
{
    let Some(after) = news.known.checked_add(1) else {
        return Err(HearFault::Memory);
    };
    news.imports.push(Value::Prom(PromId(news.known)))?;
    news.known = after;
    Ok(Incoming::New(connection.peer()))
}

/// The object at a position.
#[tactic(auto, unfolding(crate::specs::Hearing::object_at, crate::specs::Hearing::opened_acts))]
fn object_at(
    connection: &Connection,
    news: &mut News,
    position: u64,
    there: Option<Value>,
) -> Result<Incoming, HearFault>
    ensures { Gives result news.new (object_at connection.now position there news.old) }
{
    match there {
        Some(value) => known_object(news, value),
        None => {
            if !is_next(connection, news, position) {
                return Err(HearFault::Malformed);
            }
            new_object(connection, news, position)
        }
    }
}

/// The promise at a position.
#[tactic(auto, unfolding(crate::specs::Hearing::promise_at, crate::specs::Hearing::opened_acts))]
fn promise_at(
    connection: &Connection,
    news: &mut News,
    position: u64,
    there: Option<Value>,
) -> Result<Incoming, HearFault>
    ensures { Gives result news.new (promise_at connection.now position there news.old) }
{
    match there {
        Some(value) => known_promise(news, value),
        None => {
            if !is_next(connection, news, position) {
                return Err(HearFault::Malformed);
            }
            new_promise(connection, news)
        }
    }
}

/// A name of this vat or of the peer.
#[tactic(auto, unfolding(crate::specs::Hearing::name_heard, crate::specs::Hearing::opened_acts))]
pub(crate) fn hear_name(
    connection: &Connection,
    news: &mut News,
    desc: &Desc,
) -> Result<Incoming, HearFault>
    ensures { Gives result news.new (name_heard connection.now (described desc.now) news.old) }
{
    match desc {
        Desc::MyExport(position) => {
            let there = import_at(connection, news, *position);
            object_at(connection, news, *position, there)
        }
        Desc::MyPromise(position) => {
            let there = import_at(connection, news, *position);
            promise_at(connection, news, *position, there)
        }
        Desc::YourExport(_) | Desc::YourAnswer(_) | Desc::MyAnswer(_) => {
            known(news, connection.entry(desc))
        }
        Desc::Plain(_) | Desc::ListOf(_) | Desc::Broken(_) | Desc::Third { .. } => {
            Err(HearFault::Malformed)
        }
    }
}
