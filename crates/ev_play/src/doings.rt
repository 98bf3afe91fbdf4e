//! What a play does: how it is spelled, which vats it names, and drains written out.

ghost use Rattle.std.specs.Prelude.{◌≡◌, ◌<◌, ◌≤◌, ◌++◌, IfOk, MatchOption, OnOk, is_some, length, map, nat_le, option_and_then, option_map};
ghost use Rattle.std.specs.List.{list_all};
ghost use Rattle.serde_json.specs.View.{view};
ghost use Rattle.ev_script.specs.Json.{each};
ghost use Rattle.ev_script.specs.Schedule.{told, written};
ghost use Rattle.ev_script.specs.Script.{Reads, most_entries};
ghost use Rattle.ev_play.specs.Doings.{Injects, Plain, done_by, done_by_all, doings_of, entries_in, frame_bytes, inject_of, is_frame, is_spelling, placed_inject, placed_spelling, play_step_in, spelling_by, spelling_in};
ghost use Rattle.ev_play.specs.Play.{do_all};

use crate::play::Doing;
use ev_base::{Memory, Seq, Str, VatId};
use ev_script::entries::{Step, placed, told, vat_word};
use ev_script::head::{are_hex_digits, key_byte};
use ev_script::json::list_at;
use ev_script::schedule::{push_step, size_of};
use ev_script::{Entry, ScriptFault};
use ev_text::split;
use serde_json::Value;
use std::alloc::Global;

/// The most entries of a play.
const MOST_DOINGS: u64 = 100_000;

/// What is to be done, its vats found and the bytes of a frame read.
#[derive(Drop)]
pub(crate) enum PlayStep {
    Plain(Step),
    Inject(VatId, VatId, Seq<u8>),
}

/// Whether digits spell a frame of 1 to 4,096 bytes.
fn is_frame(digits: &str) -> bool
    ensures { result ≡ is_frame digits.now }
{
    digits.len() >= 2
        && digits.len() <= 8192
        && digits.len() % 2 == 0
        && are_hex_digits(digits.as_bytes())
}

/// The vats of an inject and its digits, from what stands behind its first word.
fn inject_of<'t>(names: &[Str], rest: &'t str) -> Option<(Option<VatId>, Option<VatId>, &'t str)>
    requires { length names.now ≤ 16 }
    ensures { option_map (λ parts. Injects parts.0 parts.1 parts.2.now) result ≡ inject_of names.now rest.now }
{
    let (first, behind) = split(rest)?;
    let (second, digits) = split(behind)?;
    let from = vat_word(names, first)?;
    let to = vat_word(names, second)?;
    if is_frame(digits) {
        Some((from, to, digits))
    } else {
        None
    }
}

/// Whether a text spells something to do.
fn is_spelled(names: &[Str], text: &str) -> bool
    requires { length names.now ≤ 16 }
    ensures { result ≡ is_some (spelling_by names.now text.now) }
{
    let Some((word, rest)) = split(text) else {
        return false;
    };
    if word == "inject" {
        inject_of(names, rest).is_some()
    } else {
        told(names, word, rest).is_some()
    }
}

fn is_spelling(names: &[Str], value: &Value) -> bool
    requires { length names.now ≤ 16 }
    ensures { result ≡ is_spelling names.now (view value.now) }
{
    match value.as_str() {
        Some(text) => is_spelled(names, text),
        None => false,
    }
}

/// Whether each value is a text that spells something to do.
fn are_spelled(names: &[Str], values: &[Value]) -> bool
    requires { length names.now ≤ 16 }
    ensures { result ≡ list_all (is_spelling names.now) (map view values.now) }
{
    for value in values {
        if !is_spelling(names, value) {
            return false;
        }
    }
    true
}

/// The values of a schedule, where each is a text that spells something to do.
pub(crate) fn doings_of<'v>(names: &[Str], value: &'v Value) -> Option<&'v [Value]>
    requires { length names.now ≤ 16 }
    ensures { option_map (λ list. map view list.now) result ≡ doings_of names.now (view value.now) }
{
    let values = list_at(value, "schedule")?;
    if are_spelled(names, values) {
        Some(values)
    } else {
        None
    }
}

/// The bytes that digits spell.
fn frame_bytes(alloc: Global, digits: &[u8]) -> Result<Seq<u8>, Memory>
    ensures { IfOk result (λ bytes. bytes ≡ frame_bytes digits.now) }
{
    let count = digits.len() / 2;
    let mut bytes = Vec::with_capacity(alloc, count)?;
    for place in 0..count {
        bytes.push(key_byte(digits, place))?;
    }
    Ok(Seq::of(bytes))
}

fn placed_inject(
    alloc: Global,
    from: Option<VatId>,
    to: Option<VatId>,
    digits: &str,
) -> Result<Option<PlayStep>, Memory>
    ensures { IfOk result (λ step. step ≡ placed_inject from to digits.now) }
{
    let Some(from) = from else {
        return Ok(None);
    };
    let Some(to) = to else {
        return Ok(None);
    };
    if from == to {
        return Ok(None);
    }
    let bytes = frame_bytes(alloc, digits.as_bytes())?;
    Ok(Some(PlayStep::Inject(from, to, bytes)))
}

/// The step of an entry as of every script.
fn plain_step(names: &[Str], word: &str, rest: &str) -> Option<PlayStep>
    requires { length names.now ≤ 16 }
    ensures { result ≡ option_and_then placed_spelling (option_map Plain (told names.now word.now rest.now)) }
{
    let entry = told(names, word, rest)?;
    Some(PlayStep::Plain(placed(entry)?))
}

/// The step of an inject.
fn inject_step(alloc: Global, names: &[Str], rest: &str) -> Result<Option<PlayStep>, Memory>
    requires { length names.now ≤ 16 }
    ensures { IfOk result (λ step. step ≡ option_and_then placed_spelling (inject_of names.now rest.now)) }
{
    match inject_of(names, rest) {
        Some((from, to, digits)) => placed_inject(alloc, from, to, digits),
        None => Ok(None),
    }
}

/// The step that a text spells, where its vats are there and differ.
fn step_by(alloc: Global, names: &[Str], text: &str) -> Result<Option<PlayStep>, Memory>
    requires { length names.now ≤ 16 }
    ensures { IfOk result (λ step. step ≡ option_and_then placed_spelling (spelling_by names.now text.now)) }
{
    let Some((word, rest)) = split(text) else {
        return Ok(None);
    };
    if word == "inject" {
        inject_step(alloc, names, rest)
    } else {
        Ok(plain_step(names, word, rest))
    }
}

fn step_in(alloc: Global, names: &[Str], value: &Value) -> Result<Option<PlayStep>, Memory>
    requires { length names.now ≤ 16 }
    ensures { IfOk result (λ step. step ≡ play_step_in names.now (view value.now)) }
{
    match value.as_str() {
        Some(text) => step_by(alloc, names, text),
        None => Ok(None),
    }
}

/// The steps of the values, where the vats of each are there and differ.
pub(crate) fn steps_of(
    alloc: Global,
    names: &[Str],
    values: &[Value],
) -> Result<Option<Seq<PlayStep>>, Memory>
    requires { length names.now ≤ 16 }
    ensures { IfOk result (λ steps. steps ≡ each (play_step_in names.now) (map view values.now)) }
{
    let mut steps = Seq::new(alloc);
    for value in values {
        let Some(step) = step_in(alloc, names, value)? else {
            return Ok(None);
        };
        steps.push(step)?;
    }
    Ok(Some(steps))
}

/// How many entries a step is, and none where they are more than a `u64` counts.
fn count_of(round: &[Entry], step: &PlayStep) -> Option<u64>
    ensures { MatchOption result (most_entries < length (done_by round.now step.now)) (λ size. size ≡ length (done_by round.now step.now)) }
{
    match step {
        PlayStep::Plain(step) => size_of(round, *step),
        PlayStep::Inject(_, _, _) => Some(1),
    }
}

/// Whether the steps are few enough, which is told without writing them out.
fn are_few(round: &[Entry], steps: &[PlayStep]) -> bool
    ensures { result ≡ nat_le (length (done_by_all round.now steps.now)) most_entries }
{
    let mut left = MOST_DOINGS;
    for step in steps {
        let Some(size) = count_of(round, step) else {
            return false;
        };
        if size > left {
            return false;
        }
        left -= size;
    }
    true
}

/// Appends entries.
fn push_entries(out: &mut Vec<Doing>, entries: &[Entry]) -> Result<(), Memory>
    ensures { OnOk result (out.new.items ≡ out.old.items ++ map Doing.Does entries.now) }
{
    for entry in entries {
        out.push(Doing::Does(*entry))?;
    }
    Ok(())
}

/// Appends the entries of a step.
fn push_plain(
    alloc: Global,
    out: &mut Vec<Doing>,
    round: &[Entry],
    step: Step,
) -> Result<(), Memory>
    ensures { OnOk result (out.new.items ≡ out.old.items ++ map Doing.Does (written round.now step)) }
{
    let mut entries = Vec::new(alloc);
    push_step(&mut entries, round, step)?;
    push_entries(out, entries.as_slice())
}

/// Appends what a step does.
fn push_done(
    alloc: Global,
    out: &mut Vec<Doing>,
    round: &[Entry],
    step: PlayStep,
) -> Result<(), Memory>
    ensures { OnOk result (out.new.items ≡ out.old.items ++ done_by round.now step) }
{
    match step {
        PlayStep::Plain(step) => push_plain(alloc, out, round, step)?,
        PlayStep::Inject(from, to, bytes) => out.push(Doing::Inject { from, to, bytes })?,
    }
    Ok(())
}

/// What the steps do, each drain as so many rounds.
#[tactic(auto, unfolding(crate::specs::Play::do_all))]
pub(crate) fn do_all(
    alloc: Global,
    round: &[Entry],
    steps: Seq<PlayStep>,
) -> Result<Seq<Doing>, ScriptFault>
    ensures { Reads result (do_all round.now steps) }
{
    if !are_few(round, steps.as_slice()) {
        return Err(ScriptFault::Rule(11));
    }
    Ok(done_by_all(alloc, round, steps)?)
}

fn done_by_all(alloc: Global, round: &[Entry], steps: Seq<PlayStep>) -> Result<Seq<Doing>, Memory>
    ensures { IfOk result (λ doings. doings ≡ done_by_all round.now steps) }
{
    let mut doings = Vec::new(alloc);
    for step in steps.into_vec() {
        push_done(alloc, &mut doings, round, step)?;
    }
    Ok(Seq::of(doings))
}

/// The entries as of every script among what is done.
pub(crate) fn entries_in(alloc: Global, doings: &[Doing]) -> Result<Seq<Entry>, Memory>
    ensures { IfOk result (λ entries. entries ≡ entries_in doings.now) }
{
    let mut entries = Seq::new(alloc);
    for doing in doings {
        match doing {
            Doing::Does(entry) => entries.push(*entry)?,
            Doing::Inject { .. } => {}
        }
    }
    Ok(entries)
}
