//! The reader of scripts, rule by rule.

ghost use Rattle.std.specs.Prelude.{◌≡◌, ◌≤◌, IfOk, length};
ghost use Rattle.serde_json.specs.View.{view};
ghost use Rattle.ev_script.specs.Rules.{IsAdmitted};
ghost use Rattle.ev_script.specs.Script.{Reads, read, read_rest, read_schedule, read_value, read_vats};

use crate::entries::{entries_of, steps_of};
use crate::head::{fuel_of, is_script_object, key_of};
use crate::json::read_json;
use crate::schedule::{are_in_order, round_of, write_out};
use crate::script::{Entry, Script, ScriptFault};
use crate::vats::{Described, are_sources, are_vat_names, known_by_all, names_of, vats_of};
use ev_base::{Seq, Str};
use serde_json::Value;
use std::alloc::Global;

/// What the script says of its vats: rules 5 to 7.
#[tactic(auto, unfolding(crate::specs::Script::read_vats))]
pub fn read_vats(alloc: Global, value: &Value) -> Result<Seq<Described>, ScriptFault>
    ensures reads { Reads result (read_vats (view value.now)) }
    ensures few { IfOk result (λ vats. length vats ≤ 16) }
{
    let Some(vats) = vats_of(alloc, value)? else {
        return Err(ScriptFault::Rule(5));
    };
    let names = names_of(alloc, vats.as_slice())?;
    if !are_vat_names(names.as_slice()) {
        return Err(ScriptFault::Rule(6));
    }
    if !are_sources(vats.as_slice()) {
        return Err(ScriptFault::Rule(7));
    }
    Ok(vats)
}

/// The schedule, drains written out: rules 9 to 12.
#[tactic(auto, unfolding(crate::specs::Script::read_schedule))]
fn read_schedule(alloc: Global, names: &[Str], value: &Value) -> Result<Seq<Entry>, ScriptFault>
    requires { length names.now ≤ 16 }
    ensures { Reads result (read_schedule names.now (view value.now)) }
{
    let Some(values) = entries_of(names, value) else {
        return Err(ScriptFault::Rule(9));
    };
    let Some(steps) = steps_of(alloc, names, values)? else {
        return Err(ScriptFault::Rule(10));
    };
    let round = round_of(alloc, names.len() as u8)?;
    let entries = write_out(alloc, round.as_slice(), steps.as_slice())?;
    if !are_in_order(alloc, entries.as_slice())? {
        return Err(ScriptFault::Rule(12));
    }
    Ok(entries)
}

/// The script of a key, a fuel and what is said of its vats: rules 8 to 12.
#[tactic(auto, unfolding(crate::specs::Script::read_rest))]
fn read_rest(
    alloc: Global,
    key: [u8; 32],
    fuel: u32,
    vats: &[Described],
    value: &Value,
) -> Result<Script, ScriptFault>
    requires { length vats.now ≤ 16 }
    ensures { Reads result (read_rest key fuel vats.now (view value.now)) }
{
    let names = names_of(alloc, vats)?;
    let Some(known) = known_by_all(alloc, names.as_slice(), vats)? else {
        return Err(ScriptFault::Rule(8));
    };
    let schedule = read_schedule(alloc, names.as_slice(), value)?;
    Ok(Script {
        key,
        fuel,
        vats: known,
        schedule,
    })
}

/// The script that a JSON value is: rules 2 to 12.
#[tactic(auto, unfolding(crate::specs::Script::read_value))]
fn read_value(alloc: Global, value: &Value) -> Result<Script, ScriptFault>
    ensures { Reads result (read_value (view value.now)) }
{
    if !is_script_object(value) {
        return Err(ScriptFault::Rule(2));
    }
    let Some(key) = key_of(value) else {
        return Err(ScriptFault::Rule(3));
    };
    let Some(fuel) = fuel_of(value) else {
        return Err(ScriptFault::Rule(4));
    };
    let vats = read_vats(alloc, value)?;
    read_rest(alloc, key, fuel, vats.as_slice(), value)
}

/// The script that bytes are, by the rules one after another.
#[tactic(auto, unfolding(crate::specs::Script::read))]
fn read_bytes(alloc: Global, bytes: &[u8]) -> Result<Script, ScriptFault>
    ensures { Reads result (read bytes.now) }
{
    match read_json(alloc, bytes)? {
        None => Err(ScriptFault::Rule(1)),
        Some(value) => read_value(alloc, &value),
    }
}

/// Reads a script. `Rule(k)` comes exactly where rules 1 to k - 1 hold of the bytes and rule k fails, and a script exactly
/// where all twelve hold; then it is the one that the rules read, and it is as they say (`admitted`). `Memory` comes only
/// for want of memory.
#[tactic(auto, using(crate::proofs::Admitted::read_admitted))]
pub fn read_script(alloc: Global, bytes: &[u8]) -> Result<Script, ScriptFault>
    ensures reads { Reads result (read bytes.now) }
    ensures admitted { IfOk result IsAdmitted }
{
    read_bytes(alloc, bytes)
}
