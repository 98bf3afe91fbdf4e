//! What the words of notes stand for.

ghost use Rattle.std.specs.Prelude.{◌≡◌, ◌≤◌, length, option_map};
ghost use Rattle.ev_script.specs.Script.{Reads, rule};
ghost use Rattle.ev_script.specs.Vats.{place_of};
ghost use Rattle.ev_trace_words.specs.Parts.{message, name};
ghost use Rattle.ev_trace_lines.specs.Events.{asking, delivering, delivery, delivery_with, elsewhere, name_and_vat, note_of, opening, settled_note, shortening, three_words, two_names, two_words, vat};

use def_event::note::ShownNote;
use def_event::shown::Shown;
use ev_base::{Msg, Name, Seq, Str, VatId};
use ev_script::ScriptFault;
use ev_trace_words::parts;
use ev_trace_words::texts::verb;
use ev_trace_words::values::{note_value, note_values};
use std::alloc::Global;

/// A message that is delivered.
#[derive(Drop)]
pub(crate) struct Delivered {
    pub message: Msg,
    pub target: Name,
    pub verb: Str,
    pub args: Seq<Shown>,
}

/// Two words, where there are no others.
#[tactic(auto, unfolding(crate::specs::Events::two_words))]
pub(crate) fn two_words<'w>(words: &'w [Str]) -> Option<(&'w str, &'w str)>
    ensures { option_map (λ both. (both.0.now, both.1.now)) result ≡ two_words words.now }
{
    match words {
        [first, second] => Some((first.as_str(), second.as_str())),
        _ => None,
    }
}

/// Three words, where there are no others.
#[tactic(auto, unfolding(crate::specs::Events::three_words))]
pub(crate) fn three_words<'w>(words: &'w [Str]) -> Option<(&'w str, &'w str, &'w str)>
    ensures { option_map (λ all. (all.0.now, (all.1.now, all.2.now))) result ≡ three_words words.now }
{
    match words {
        [first, second, third] => Some((first.as_str(), second.as_str(), third.as_str())),
        _ => None,
    }
}

/// The vat of this name.
pub(crate) fn vat(names: &[Str], word: &str) -> Result<VatId, ScriptFault>
    requires { length names.now ≤ 16 }
    ensures { Reads result (vat names.now word.now) }
{
    match parts::vat(names, word) {
        Some(found) => Ok(found),
        None => Err(ScriptFault::Rule(42)),
    }
}

pub(crate) fn name(names: &[Str], word: &str) -> Result<Name, ScriptFault>
    requires { length names.now ≤ 16 }
    ensures { Reads result (rule 42 (name names.now word.now)) }
{
    match parts::name(names, word) {
        Some(found) => Ok(found),
        None => Err(ScriptFault::Rule(42)),
    }
}

pub(crate) fn message(names: &[Str], word: &str) -> Result<Msg, ScriptFault>
    requires { length names.now ≤ 16 }
    ensures { Reads result (rule 42 (message names.now word.now)) }
{
    match parts::message(names, word) {
        Some(found) => Ok(found),
        None => Err(ScriptFault::Rule(42)),
    }
}

/// A message to a target is delivered.
#[tactic(auto, unfolding(crate::specs::Events::delivery_with))]
fn delivery_with(
    alloc: Global,
    names: &[Str],
    message: Msg,
    target: Name,
    word: &str,
    args: &[Str],
) -> Result<Delivered, ScriptFault>
    requires { length names.now ≤ 16 }
    ensures { Reads result (delivery_with names.now message target word.now args.now) }
{
    let verb = verb(alloc, word)?;
    let args = note_values(alloc, names, args)?;
    Ok(Delivered {
        message,
        target,
        verb,
        args,
    })
}

fn delivery(alloc: Global, names: &[Str], words: &[Str]) -> Result<Delivered, ScriptFault>
    requires { length names.now ≤ 16 }
    ensures { Reads result (delivery names.now words.now) }
{
    match words {
        [id, target, word, args @ ..] => {
            let id = message(names, id.as_str())?;
            let target = name(names, target.as_str())?;
            delivery_with(alloc, names, id, target, word.as_str(), args)
        }
        _ => Err(ScriptFault::Rule(42)),
    }
}

/// Two names.
pub(crate) fn two_names(names: &[Str], words: &[Str]) -> Result<(Name, Name), ScriptFault>
    requires { length names.now ≤ 16 }
    ensures { Reads result (two_names names.now words.now) }
{
    match two_words(words) {
        Some((first, second)) => Ok((name(names, first)?, name(names, second)?)),
        None => Err(ScriptFault::Rule(42)),
    }
}

fn name_and_vat(names: &[Str], words: &[Str]) -> Result<(Name, VatId), ScriptFault>
    requires { length names.now ≤ 16 }
    ensures { Reads result (name_and_vat names.now words.now) }
{
    match two_words(words) {
        Some((first, second)) => Ok((name(names, first)?, vat(names, second)?)),
        None => Err(ScriptFault::Rule(42)),
    }
}

fn settled_note(alloc: Global, names: &[Str], words: &[Str]) -> Result<ShownNote, ScriptFault>
    requires { length names.now ≤ 16 }
    ensures { Reads result (settled_note names.now words.now) }
{
    match two_words(words) {
        Some((first, second)) => {
            let subject = name(names, first)?;
            let x = note_value(alloc, names, 100, second)?;
            Ok(ShownNote::Settled(subject, x))
        }
        None => Err(ScriptFault::Rule(42)),
    }
}

/// A delivery, whose message has no answer where it is `only` delivered.
fn delivering(
    alloc: Global,
    names: &[Str],
    words: &[Str],
    only: bool,
) -> Result<ShownNote, ScriptFault>
    requires { length names.now ≤ 16 }
    ensures { Reads result (delivering names.now only words.now) }
{
    let Delivered {
        message,
        target,
        verb,
        args,
    } = delivery(alloc, names, words)?;
    if only {
        Ok(ShownNote::DeliverOnly {
            message,
            target,
            verb,
            args,
        })
    } else {
        Ok(ShownNote::Deliver {
            message,
            target,
            verb,
            args,
        })
    }
}

fn elsewhere(names: &[Str], words: &[Str]) -> Result<ShownNote, ScriptFault>
    requires { length names.now ≤ 16 }
    ensures { Reads result (elsewhere names.now words.now) }
{
    let (subject, host) = name_and_vat(names, words)?;
    Ok(ShownNote::Elsewhere(subject, host))
}

fn opening(names: &[Str], words: &[Str]) -> Result<ShownNote, ScriptFault>
    requires { length names.now ≤ 16 }
    ensures { Reads result (opening names.now words.now) }
{
    let (gift, target) = two_names(names, words)?;
    Ok(ShownNote::Open(gift, target))
}

fn asking(names: &[Str], words: &[Str]) -> Result<ShownNote, ScriptFault>
    requires { length names.now ≤ 16 }
    ensures { Reads result (asking names.now words.now) }
{
    let (gift, provider) = name_and_vat(names, words)?;
    Ok(ShownNote::Ask(gift, provider))
}

fn shortening(names: &[Str], words: &[Str]) -> Result<ShownNote, ScriptFault>
    requires { length names.now ≤ 16 }
    ensures { Reads result (shortening names.now words.now) }
{
    let (subject, gift) = two_names(names, words)?;
    Ok(ShownNote::Shorten(subject, gift))
}

/// The note of this kind.
pub(crate) fn note_of(
    alloc: Global,
    names: &[Str],
    kind: &str,
    rest: &[Str],
) -> Result<ShownNote, ScriptFault>
    requires { length names.now ≤ 16 }
    ensures { Reads result (note_of names.now kind.now rest.now) }
{
    match kind {
        "deliver" => delivering(alloc, names, rest, false),
        "deliveronly" => delivering(alloc, names, rest, true),
        "settled" => settled_note(alloc, names, rest),
        "elsewhere" => elsewhere(names, rest),
        "open" => opening(names, rest),
        "ask" => asking(names, rest),
        "shorten" => shortening(names, rest),
        _ => Err(ScriptFault::Rule(42)),
    }
}
