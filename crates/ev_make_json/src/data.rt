//! What is told of a script, as a JSON value.

ghost use Rattle.std.specs.Prelude.{◌≡◌, IfOk, OnOk};
ghost use Rattle.serde_json.specs.Data.{no_members};
ghost use Rattle.serde_json.specs.View.{members_view, view};
ghost use Rattle.ev_make_json.specs.Data.{fuel_member, with_others, script_data, texts_data, vat_data, vats_data};

use def_vats::{Told, ToldVat};
use ev_base::{Memory, Str};
use serde_json::{Map, Value, json, put};
use std::alloc::Global;

/// A list of texts.
fn texts_data(alloc: Global, texts: &[Str]) -> Result<Value, Memory>
    ensures { IfOk result (λ value. view value ≡ texts_data texts.now) }
{
    let mut values = Vec::new(alloc);
    for text in texts {
        values.push(Value::try_from_str(alloc, text.as_str())?)?;
    }
    Ok(Value::Array(values))
}

/// A vat.
fn vat_data(alloc: Global, vat: &ToldVat) -> Result<Value, Memory>
    ensures { IfOk result (λ value. view value ≡ vat_data vat.now) }
{
    let knows = texts_data(alloc, vat.knows.as_slice())?;
    let name = vat.name.as_str();
    let source = vat.source.as_str();
    Ok(json!(in alloc; {"knows": knows, "name": name, "source": source})?)
}

/// The vats.
fn vats_data(alloc: Global, vats: &[ToldVat]) -> Result<Value, Memory>
    ensures { IfOk result (λ value. view value ≡ vats_data vats.now) }
{
    let mut values = Vec::new(alloc);
    for vat in vats {
        values.push(vat_data(alloc, vat)?)?;
    }
    Ok(Value::Array(values))
}

/// Puts the fuel, where it is told.
fn put_fuel(
    alloc: Global,
    members: &mut Map<String, Value>,
    fuel: Option<u64>,
) -> Result<(), Memory>
    requires { members_view members.old.entries ≡ no_members }
    ensures { OnOk result (members_view members.new.entries ≡ fuel_member fuel) }
{
    if let Some(fuel) = fuel {
        put(members, alloc, "fuel", Value::from(fuel))?;
    }
    Ok(())
}

/// Puts the key, the schedule and the vats.
fn put_others(alloc: Global, members: &mut Map<String, Value>, told: &Told) -> Result<(), Memory>
    ensures { OnOk result (members_view members.new.entries ≡ with_others told.now (members_view members.old.entries)) }
{
    let key = Value::try_from_str(alloc, told.key.as_str())?;
    let schedule = texts_data(alloc, told.schedule.as_slice())?;
    let vats = vats_data(alloc, told.vats.as_slice())?;
    put(members, alloc, "key", key)?;
    put(members, alloc, "schedule", schedule)?;
    put(members, alloc, "vats", vats)?;
    Ok(())
}

/// The script.
pub(crate) fn script_data(alloc: Global, told: &Told) -> Result<Value, Memory>
    ensures { IfOk result (λ value. view value ≡ script_data told.now) }
{
    let mut members = Map::new(alloc);
    put_fuel(alloc, &mut members, told.fuel)?;
    put_others(alloc, &mut members, told)?;
    Ok(Value::Object(members))
}
