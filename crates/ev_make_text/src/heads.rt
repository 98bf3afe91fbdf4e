//! What a head says with the lines under it.

ghost use Rattle.std.specs.Prelude.{◌≡◌, IfOk, option_map};
ghost use Rattle.def_vats.specs.Reading.{fuel_told, known_in, plain_source, quoted_source, under, vat_told, with_fuel, with_key, with_schedule, with_vat, with_verb, with_words, words_of};
ghost use Rattle.ev_make_text.specs.Reads.{Becomes};

use crate::bodies::{plain_source, push_entries, quoted_source};
use crate::lines::{under, words_of};
use def_vats::{Told, ToldVat};
use ev_base::{Memory, Seq, Str};
use ev_text::number;
use std::alloc::Global;

/// The greatest number that is read for a fuel.
const MOST_FUEL: u64 = 10_000_000;

/// Nobody, or the names behind `knows`.
fn known_in(words: &[Str]) -> Option<&[Str]>
    ensures { option_map (λ names. names.now) result ≡ known_in words.now }
{
    match words {
        [] => Some(words),
        [word, names @ ..] if word.as_str() == "knows" => Some(names),
        _ => None,
    }
}

/// Texts of their own.
fn copies(alloc: Global, texts: &[Str]) -> Result<Seq<Str>, Memory>
    ensures { IfOk result (λ copies. copies ≡ texts.now) }
{
    let mut copies = Seq::new(alloc);
    for text in texts {
        copies.push(Str::copy_of(alloc, text.as_str())?)?;
    }
    Ok(copies)
}

/// A vat with its name and whom it knows.
fn vat_told(alloc: Global, words: &[Str], source: Str) -> Result<Option<ToldVat>, Memory>
    ensures { IfOk result (λ vat. vat ≡ vat_told words.now source) }
{
    let [name, rest @ ..] = words else {
        return Ok(None);
    };
    let Some(names) = known_in(rest) else {
        return Ok(None);
    };
    Ok(Some(ToldVat {
        name: Str::copy_of(alloc, name.as_str())?,
        knows: copies(alloc, names)?,
        source,
    }))
}

/// Tells of a vat more. False where nothing is told of it.
fn with_vat(told: &mut Told, vat: Option<ToldVat>) -> Result<bool, Memory>
    ensures { IfOk result (λ read. Becomes (with_vat told.old vat) read told.new) }
{
    match vat {
        None => Ok(false),
        Some(vat) => {
            told.vats.push(vat)?;
            Ok(true)
        }
    }
}

/// Tells of the entries among the lines.
fn with_schedule(
    alloc: Global,
    told: &mut Told,
    words: &[Str],
    lines: &[Str],
) -> Result<bool, Memory>
    ensures { IfOk result (λ read. Becomes (with_schedule told.old words.now lines.now) read told.new) }
{
    if !words.is_empty() {
        return Ok(false);
    }
    push_entries(alloc, &mut told.schedule, lines)?;
    Ok(true)
}

/// Tells the key.
fn with_key(alloc: Global, told: &mut Told, words: &[Str]) -> Result<bool, Memory>
    ensures { IfOk result (λ read. Becomes (with_key told.old words.now) read told.new) }
{
    match words {
        [key] => {
            told.key = Str::copy_of(alloc, key.as_str())?;
            Ok(true)
        }
        _ => Ok(false),
    }
}

/// Tells the fuel.
fn with_fuel(told: &mut Told, words: &[Str]) -> bool
    ensures { Becomes (with_fuel told.old words.now) result told.new }
{
    let [fuel] = words else {
        return false;
    };
    let Some(fuel) = number(fuel.as_str(), MOST_FUEL) else {
        return false;
    };
    told.fuel = Some(fuel);
    true
}

/// Tells what a verb says with the words behind it and the lines under it.
fn with_verb(
    alloc: Global,
    told: &mut Told,
    verb: &str,
    words: &[Str],
    lines: &[Str],
) -> Result<bool, Memory>
    ensures { IfOk result (λ read. Becomes (with_verb told.old verb.now words.now lines.now) read told.new) }
{
    match verb {
        "vat" => {
            let source = plain_source(alloc, lines)?;
            with_vat(told, vat_told(alloc, words, source)?)
        }
        "quoted" => {
            let source = quoted_source(alloc, lines)?;
            with_vat(told, vat_told(alloc, words, source)?)
        }
        "schedule" => with_schedule(alloc, told, words, lines),
        "key" => with_key(alloc, told, words),
        "fuel" => Ok(with_fuel(told, words)),
        _ => Ok(false),
    }
}

/// Tells what a head says with the lines under it. False where it says nothing.
pub(crate) fn with_head(
    alloc: Global,
    told: &mut Told,
    head: &str,
    lines: &[Str],
) -> Result<bool, Memory>
    ensures { IfOk result (λ read. Becomes (with_words told.old (words_of head.now) (under lines.now)) read told.new) }
{
    let words = words_of(alloc, head)?;
    let [verb, rest @ ..] = words.as_slice() else {
        return Ok(false);
    };
    with_verb(alloc, told, verb.as_str(), rest, under(lines))
}
