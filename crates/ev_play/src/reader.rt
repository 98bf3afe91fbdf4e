//! The reader of plays, rule by rule.

ghost use Rattle.std.specs.Prelude.{◌≡◌, ◌≤◌, IfOk, length};
ghost use Rattle.serde_json.specs.View.{view};
ghost use Rattle.ev_script.specs.Script.{Reads};
ghost use Rattle.ev_play.specs.Quiet.{HonestPlaysAreScripts, QuietPlaysAreScripts};
ghost use Rattle.ev_play.specs.Rules.{IsAdmittedPlay};
ghost use Rattle.ev_play.specs.Play.{read_doings, read_hostile, read_play, read_play_rest, read_play_value};

use crate::doings::{do_all, doings_of, entries_in, steps_of};
use crate::hostile::{have_no_source, hostile_of, is_play_object, may_do_all};
use crate::play::{Doing, Play};
use ev_base::{Seq, Str, VatId};
use ev_script::head::{fuel_of, key_of};
use ev_script::json::read_json;
use ev_script::reader::read_vats;
use ev_script::schedule::{are_in_order, round_of};
use ev_script::vats::{Described, known_by_all, names_of};
use ev_script::{Script, ScriptFault, VatScript};
use serde_json::Value;
use std::alloc::Global;

/// What is done, drains written out: rules 9 to 12.
#[tactic(auto, unfolding(crate::specs::Play::read_doings))]
fn read_doings(alloc: Global, names: &[Str], value: &Value) -> Result<Seq<Doing>, ScriptFault>
    requires { length names.now ≤ 16 }
    ensures { Reads result (read_doings names.now (view value.now)) }
{
    let Some(values) = doings_of(names, value) else {
        return Err(ScriptFault::Rule(9));
    };
    let Some(steps) = steps_of(alloc, names, values)? else {
        return Err(ScriptFault::Rule(10));
    };
    let round = round_of(alloc, names.len() as u8)?;
    let doings = do_all(alloc, round.as_slice(), steps)?;
    let entries = entries_in(alloc, doings.as_slice())?;
    if !are_in_order(alloc, entries.as_slice())? {
        return Err(ScriptFault::Rule(12));
    }
    Ok(doings)
}

/// The hostile vats: rules 13 to 15.
#[tactic(auto, unfolding(crate::specs::Play::read_hostile))]
fn read_hostile(
    alloc: Global,
    names: &[Str],
    vats: &[VatScript],
    doings: &[Doing],
    value: &Value,
) -> Result<Seq<VatId>, ScriptFault>
    requires { length names.now ≤ 16 }
    ensures { Reads result (read_hostile names.now vats.now doings.now (view value.now)) }
{
    let Some(hostile) = hostile_of(alloc, names, value)? else {
        return Err(ScriptFault::Rule(13));
    };
    if !have_no_source(vats, hostile.as_slice()) {
        return Err(ScriptFault::Rule(14));
    }
    if !may_do_all(hostile.as_slice(), doings) {
        return Err(ScriptFault::Rule(15));
    }
    Ok(hostile)
}

/// The play of a key, a fuel and what is said of its vats: rules 8 to 15.
#[tactic(auto, unfolding(crate::specs::Play::read_play_rest))]
fn read_rest(
    alloc: Global,
    key: [u8; 32],
    fuel: u32,
    described: &[Described],
    value: &Value,
) -> Result<Play, ScriptFault>
    requires { length described.now ≤ 16 }
    ensures { Reads result (read_play_rest key fuel described.now (view value.now)) }
{
    let names = names_of(alloc, described)?;
    let Some(vats) = known_by_all(alloc, names.as_slice(), described)? else {
        return Err(ScriptFault::Rule(8));
    };
    let doings = read_doings(alloc, names.as_slice(), value)?;
    let hostile = read_hostile(
        alloc,
        names.as_slice(),
        vats.as_slice(),
        doings.as_slice(),
        value,
    )?;
    let script = Script {
        key,
        fuel,
        vats,
        schedule: entries_in(alloc, doings.as_slice())?,
    };
    Ok(Play {
        script,
        hostile,
        doings,
    })
}

/// The play that a JSON value is: rules 2 to 15.
#[tactic(auto, unfolding(crate::specs::Play::read_play_value))]
fn read_value(alloc: Global, value: &Value) -> Result<Play, ScriptFault>
    ensures { Reads result (read_play_value (view value.now)) }
{
    if !is_play_object(value) {
        return Err(ScriptFault::Rule(2));
    }
    let Some(key) = key_of(value) else {
        return Err(ScriptFault::Rule(3));
    };
    let Some(fuel) = fuel_of(value) else {
        return Err(ScriptFault::Rule(4));
    };
    let vats = read_vats(alloc, value)?;
    read_rest(alloc, key, fuel, vats.as_slice(), value)
}

/// The play that bytes are, by the rules one after another.
#[tactic(auto, unfolding(crate::specs::Play::read_play))]
fn read_bytes(alloc: Global, bytes: &[u8]) -> Result<Play, ScriptFault>
    ensures { Reads result (read_play bytes.now) }
{
    match read_json(alloc, bytes)? {
        None => Err(ScriptFault::Rule(1)),
        Some(value) => read_value(alloc, &value),
    }
}

/// Reads a play, by fifteen rules: those of scripts, of which the second and the ninth allow for hostile vats and injects, and
/// three of hostile vats. `Rule(k)` comes exactly where rules 1 to k - 1 hold of the bytes and rule k fails, and a play exactly
/// where all hold; then it is the one that the rules read, and it is as they say (`admitted`). `Memory` comes only for want of
/// memory.
#[tactic(auto, using(crate::proofs::AdmittedPlay::read_admitted_play))]
pub fn read_play(alloc: Global, bytes: &[u8]) -> Result<Play, ScriptFault>
    ensures reads { Reads result (read_play bytes.now) }
    ensures admitted { IfOk result IsAdmittedPlay }
{
    read_bytes(alloc, bytes)
}

/// Bytes that name no hostile vat and inject nothing are read as a script is: the play is that of the script, in which no vat is hostile
/// and whose schedule is done, or the same rule is the first that fails.
pub fn quiet_plays_are_scripts()
    ensures { QuietPlaysAreScripts }
{}

/// A play that is read in which no vat is hostile is that of its script.
pub fn honest_plays_are_scripts()
    ensures { HonestPlaysAreScripts }
{}
