//! How the entries of a schedule are spelled, and which vats they name.

ghost use Rattle.std.specs.Prelude.{◌≡◌, ◌≤◌, IfOk, IsTrue, length, map, option_map};
ghost use Rattle.std.specs.Char.{is_ascii_digit};
ghost use Rattle.std.specs.List.{list_all, list_any};
ghost use Rattle.std.specs.Str.{all_ascii_digits};
ghost use Rattle.serde_json.specs.View.{view};
ghost use Rattle.ev_text.specs.Lines.{is_space};
ghost use Rattle.ev_script.specs.Json.{each};
ghost use Rattle.ev_script.specs.Schedule.{begins_with_zero, drain_of, entries_of, is_numeral, is_spelled, pair_step, step_in, is_word, bounded_rounds, pair_of, placed, placed_pair, rounds_of, spelled_by, spelled_in, told, turn_of, vat_word, verb_of};

use crate::json::list_at;
use crate::vats::place_of;
use ev_base::{Memory, Seq, Str, VatId};
use ev_text::split;
use serde_json::Value;
use std::alloc::Global;

/// The most rounds of a drain.
const MOST_ROUNDS: u32 = 100_000;

/// What an entry does with two vats.
#[derive(Clone, Copy)]
pub enum Verb {
    Carry,
    Cut,
    Notice,
}

/// An entry as it is spelled: a word that names no vat has none.
#[derive(Clone, Copy)]
pub enum Spelled {
    Turn(Option<VatId>),
    Pair(Verb, Option<VatId>, Option<VatId>),
    Drain(u32),
}

/// An entry whose vats are found, or so many rounds.
#[derive(Clone, Copy)]
pub enum Step {
    Turn(VatId),
    Carry(VatId, VatId),
    Cut(VatId, VatId),
    Notice(VatId, VatId),
    Rounds(u32),
}

fn has_space(bytes: &[u8]) -> bool
    ensures { result ≡ list_any is_space bytes.now }
{
    bytes.iter().any(|byte| *byte == b' ')
}

fn is_word(text: &str) -> bool
    ensures { result ≡ is_word text.now }
{
    !text.is_empty() && !has_space(text.as_bytes())
}

/// The vat that a word names, and none where the text is no word.
pub fn vat_word(names: &[Str], text: &str) -> Option<Option<VatId>>
    requires { length names.now ≤ 16 }
    ensures { result ≡ vat_word names.now text.now }
{
    if is_word(text) {
        Some(place_of(names, text))
    } else {
        None
    }
}

fn begins_with_zero(bytes: &[u8]) -> bool
    ensures { result ≡ begins_with_zero bytes.now }
{
    match bytes {
        [] => false,
        [first, ..] => *first == b'0',
    }
}

/// Whether each byte is a decimal digit.
fn are_digits(bytes: &[u8]) -> bool
    ensures { result ≡ list_all is_ascii_digit bytes.now }
{
    bytes.iter().all(|byte| byte.is_ascii_digit())
}

/// Whether the text is one digit or more without a leading zero.
#[tactic(auto, using(crate::proofs::DigitLemmas::all_are_digits))]
fn is_numeral(text: &str) -> bool
    ensures { result ≡ is_numeral text.now }
{
    !text.is_empty() && are_digits(text.as_bytes()) && !begins_with_zero(text.as_bytes())
}

/// The number of the digits, where it is not too large. It stops at the first digit that makes it too large.
fn bounded_rounds(digits: &[u8]) -> Option<u32>
    requires { IsTrue (all_ascii_digits digits.now) }
    ensures { result ≡ bounded_rounds digits.now }
{
    let mut value: u32 = 0;
    for byte in digits {
        let digit = u32::from(*byte - b'0');
        if value > (MOST_ROUNDS - digit) / 10 {
            return None;
        }
        value = 10 * value + digit;
    }
    Some(value)
}

/// The number of rounds that a text spells.
fn rounds_of(text: &str) -> Option<u32>
    ensures { result ≡ rounds_of text.now }
{
    if !is_numeral(text) {
        return None;
    }
    bounded_rounds(text.as_bytes())
}

fn verb_of(word: &str) -> Option<Verb>
    ensures { result ≡ verb_of word.now }
{
    match word {
        "carry" => Some(Verb::Carry),
        "cut" => Some(Verb::Cut),
        "notice" => Some(Verb::Notice),
        _ => None,
    }
}

fn turn_of(names: &[Str], rest: &str) -> Option<Spelled>
    requires { length names.now ≤ 16 }
    ensures { result ≡ turn_of names.now rest.now }
{
    Some(Spelled::Turn(vat_word(names, rest)?))
}

fn drain_of(rest: &str) -> Option<Spelled>
    ensures { result ≡ drain_of rest.now }
{
    Some(Spelled::Drain(rounds_of(rest)?))
}

fn pair_of(names: &[Str], word: &str, rest: &str) -> Option<Spelled>
    requires { length names.now ≤ 16 }
    ensures { result ≡ pair_of names.now word.now rest.now }
{
    let verb = verb_of(word)?;
    let (first, second) = split(rest)?;
    let from = vat_word(names, first)?;
    let to = vat_word(names, second)?;
    Some(Spelled::Pair(verb, from, to))
}

/// What a verb and the words behind it spell.
pub fn told(names: &[Str], word: &str, rest: &str) -> Option<Spelled>
    requires { length names.now ≤ 16 }
    ensures { result ≡ told names.now word.now rest.now }
{
    match word {
        "turn" => turn_of(names, rest),
        "drain" => drain_of(rest),
        _ => pair_of(names, word, rest),
    }
}

/// The entry that a text spells.
fn spelled_by(names: &[Str], text: &str) -> Option<Spelled>
    requires { length names.now ≤ 16 }
    ensures { result ≡ spelled_by names.now text.now }
{
    let (word, rest) = split(text)?;
    told(names, word, rest)
}

fn spelled_in(names: &[Str], value: &Value) -> Option<Spelled>
    requires { length names.now ≤ 16 }
    ensures { result ≡ spelled_in names.now (view value.now) }
{
    match value.as_str() {
        Some(text) => spelled_by(names, text),
        None => None,
    }
}

/// Whether each value is a text that spells an entry.
fn are_spelled(names: &[Str], values: &[Value]) -> bool
    requires { length names.now ≤ 16 }
    ensures { result ≡ list_all (is_spelled names.now) (map view values.now) }
{
    for value in values {
        if spelled_in(names, value).is_none() {
            return false;
        }
    }
    true
}

/// The values of a schedule, where each is a text that spells an entry.
pub(crate) fn entries_of<'v>(names: &[Str], value: &'v Value) -> Option<&'v [Value]>
    requires { length names.now ≤ 16 }
    ensures { option_map (λ list. map view list.now) result ≡ entries_of names.now (view value.now) }
{
    let values = list_at(value, "schedule")?;
    if are_spelled(names, values) {
        Some(values)
    } else {
        None
    }
}

fn pair_step(verb: Verb, from: VatId, to: VatId) -> Step
    ensures { result ≡ pair_step verb from to }
{
    match verb {
        Verb::Carry => Step::Carry(from, to),
        Verb::Cut => Step::Cut(from, to),
        Verb::Notice => Step::Notice(from, to),
    }
}

fn placed_pair(verb: Verb, from: Option<VatId>, to: Option<VatId>) -> Option<Step>
    ensures { result ≡ placed_pair verb from to }
{
    let from = from?;
    let to = to?;
    if from == to {
        return None;
    }
    Some(pair_step(verb, from, to))
}

/// The step of an entry, where its vats are there and differ.
pub fn placed(entry: Spelled) -> Option<Step>
    ensures { result ≡ placed entry }
{
    match entry {
        Spelled::Turn(None) => None,
        Spelled::Turn(Some(vat)) => Some(Step::Turn(vat)),
        Spelled::Pair(verb, from, to) => placed_pair(verb, from, to),
        Spelled::Drain(rounds) => Some(Step::Rounds(rounds)),
    }
}

/// The step of a value that spells an entry, where its vats are there and differ.
fn step_in(names: &[Str], value: &Value) -> Option<Step>
    requires { length names.now ≤ 16 }
    ensures { result ≡ step_in names.now (view value.now) }
{
    match spelled_in(names, value) {
        Some(entry) => placed(entry),
        None => None,
    }
}

/// The steps of the values, where the vats of each are there and differ.
pub(crate) fn steps_of(
    alloc: Global,
    names: &[Str],
    values: &[Value],
) -> Result<Option<Seq<Step>>, Memory>
    requires { length names.now ≤ 16 }
    ensures { IfOk result (λ steps. steps ≡ each (step_in names.now) (map view values.now)) }
{
    let mut steps = Seq::new(alloc);
    for value in values {
        let Some(step) = step_in(names, value) else {
            return Ok(None);
        };
        steps.push(step)?;
    }
    Ok(Some(steps))
}
