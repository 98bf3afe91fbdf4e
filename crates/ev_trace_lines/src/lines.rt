//! Lines: entries, what is left, and others.

ghost use Rattle.std.specs.Prelude.{◌≡◌, ◌≤◌, length};
ghost use Rattle.std.specs.List.{list_all};
ghost use Rattle.ev_text.specs.Lines.{is_lower_digit};
ghost use Rattle.ev_script.specs.Script.{Reads};
ghost use Rattle.ev_trace_lines.specs.Events.{arrived, bytes_of, carried, carried_of, cut, ended, entry, event_of, frame, idle, inject, injection, left, left_held, left_link, left_on, left_queue, left_wait, lost, malformed, noticed, one_vat, opened, other_line, raw_bytes, settled, turn, two_vats, viewed, waiting};

use crate::acts::{act, list_and_members, name_and_value};
use crate::notes::{message, name, note_of, three_words, two_names, two_words, vat};
use def_event::boxed::Boxed;
use def_event::event::Event;
use def_event::raw::RawLine;
use ev_base::{Seq, Str, VatId};
use ev_script::ScriptFault;
use ev_trace_words::parts::{activation, count};
use ev_trace_words::values::value;
use hex::FromHexError;
use std::alloc::Global;

fn is_lower_digit(byte: u8) -> bool
    ensures { result ≡ is_lower_digit byte }
{
    byte.is_ascii_digit() || (byte >= b'a' && byte <= b'f')
}

fn are_lower_digits(bytes: &[u8]) -> bool
    ensures { result ≡ list_all is_lower_digit bytes.now }
{
    bytes.iter().all(|byte| is_lower_digit(*byte))
}

/// The bytes of hexadecimal digits, at least one.
fn bytes_of(alloc: Global, word: &str) -> Result<Seq<u8>, ScriptFault>
    ensures { Reads result (bytes_of word.now) }
{
    if word.len() == 0 || !are_lower_digits(word.as_bytes()) {
        return Err(ScriptFault::Rule(42));
    }
    match hex::decode(alloc, word) {
        Ok(bytes) => Ok(Seq::of(bytes)),
        Err(FromHexError::OutOfMemory) => Err(ScriptFault::Memory),
        Err(_) => Err(ScriptFault::Rule(42)),
    }
}

fn one_vat(names: &[Str], words: &[Str]) -> Result<VatId, ScriptFault>
    requires { length names.now ≤ 16 }
    ensures { Reads result (one_vat names.now words.now) }
{
    match words {
        [v] => vat(names, v.as_str()),
        _ => Err(ScriptFault::Rule(42)),
    }
}

fn two_vats(names: &[Str], words: &[Str]) -> Result<(VatId, VatId), ScriptFault>
    requires { length names.now ≤ 16 }
    ensures { Reads result (two_vats names.now words.now) }
{
    match two_words(words) {
        Some((v, w)) => Ok((vat(names, v)?, vat(names, w)?)),
        None => Err(ScriptFault::Rule(42)),
    }
}

/// The bytes of a frame that was put by hand, of which there are at most 4,096, or `cut`.
fn injection(alloc: Global, word: &str) -> Result<Event, ScriptFault>
    ensures { Reads result (injection word.now) }
{
    if word == "cut" {
        return Err(ScriptFault::Rule(43));
    }
    let bytes = bytes_of(alloc, word)?;
    if bytes.len() > 4096 {
        Err(ScriptFault::Rule(42))
    } else {
        Err(ScriptFault::Rule(43))
    }
}

/// A frame that is put on a link by hand.
fn inject(alloc: Global, names: &[Str], words: &[Str]) -> Result<Event, ScriptFault>
    requires { length names.now ≤ 16 }
    ensures { Reads result (inject names.now words.now) }
{
    match three_words(words) {
        Some((v, w, what)) => {
            let _from = vat(names, v)?;
            let _to = vat(names, w)?;
            injection(alloc, what)
        }
        None => Err(ScriptFault::Rule(42)),
    }
}

/// A frame that was malformed at a place.
fn malformed(words: &[Str]) -> Result<Event, ScriptFault>
    ensures { Reads result (malformed words.now) }
{
    match words {
        [place] => match count(place.as_str()) {
            Some(_) => Err(ScriptFault::Rule(43)),
            None => Err(ScriptFault::Rule(42)),
        },
        _ => Err(ScriptFault::Rule(42)),
    }
}

/// The bytes of a frame that no vat judged.
fn raw_bytes(alloc: Global, words: &[Str]) -> Result<Seq<u8>, ScriptFault>
    ensures { Reads result (raw_bytes words.now) }
{
    match words {
        [word] => bytes_of(alloc, word.as_str()),
        _ => Err(ScriptFault::Rule(42)),
    }
}

/// What is carried from one vat to another.
fn carried_of(
    alloc: Global,
    names: &[Str],
    k: u64,
    link: (VatId, VatId),
    kind: &str,
    rest: &[Str],
) -> Result<Event, ScriptFault>
    requires { length names.now ≤ 16 }
    ensures { Reads result (carried_of names.now k link.0 link.1 kind.now rest.now) }
{
    let (from, to) = link;
    match kind {
        "bytes" => {
            let bytes = raw_bytes(alloc, rest)?;
            Ok(Event::Raw(RawLine::Bytes(k, from, to, bytes)))
        }
        "malformed" => malformed(rest),
        _ => {
            let note = note_of(alloc, names, kind, rest)?;
            Ok(Event::Carry(k, from, to, Boxed::new(alloc, note)?))
        }
    }
}

fn carried(alloc: Global, names: &[Str], k: u64, words: &[Str]) -> Result<Event, ScriptFault>
    requires { length names.now ≤ 16 }
    ensures { Reads result (carried names.now k words.now) }
{
    match words {
        [v, w, kind, rest @ ..] => {
            let from = vat(names, v.as_str())?;
            let to = vat(names, w.as_str())?;
            carried_of(alloc, names, k, (from, to), kind.as_str(), rest)
        }
        _ => Err(ScriptFault::Rule(42)),
    }
}

/// What is left on the link from one vat to another.
fn left_on(
    alloc: Global,
    names: &[Str],
    link: (VatId, VatId),
    kind: &str,
    rest: &[Str],
) -> Result<Event, ScriptFault>
    requires { length names.now ≤ 16 }
    ensures { Reads result (left_on names.now link.0 link.1 kind.now rest.now) }
{
    let (from, to) = link;
    if kind == "bytes" {
        let bytes = raw_bytes(alloc, rest)?;
        return Ok(Event::Raw(RawLine::LeftBytes(from, to, bytes)));
    }
    let note = note_of(alloc, names, kind, rest)?;
    Ok(Event::LeftLink(from, to, Boxed::new(alloc, note)?))
}

fn left_link(alloc: Global, names: &[Str], words: &[Str]) -> Result<Event, ScriptFault>
    requires { length names.now ≤ 16 }
    ensures { Reads result (left_link names.now words.now) }
{
    match words {
        [v, w, kind, rest @ ..] => {
            let from = vat(names, v.as_str())?;
            let to = vat(names, w.as_str())?;
            left_on(alloc, names, (from, to), kind.as_str(), rest)
        }
        _ => Err(ScriptFault::Rule(42)),
    }
}

fn turn(names: &[Str], k: u64, words: &[Str]) -> Result<Event, ScriptFault>
    requires { length names.now ≤ 16 }
    ensures { Reads result (turn names.now k words.now) }
{
    Ok(Event::Turn(k, one_vat(names, words)?))
}

fn idle(k: u64, words: &[Str]) -> Result<Event, ScriptFault>
    ensures { Reads result (idle k words.now) }
{
    match words {
        [] => Ok(Event::Idle(k)),
        _ => Err(ScriptFault::Rule(42)),
    }
}

fn cut(names: &[Str], k: u64, words: &[Str]) -> Result<Event, ScriptFault>
    requires { length names.now ≤ 16 }
    ensures { Reads result (cut names.now k words.now) }
{
    let (from, to) = two_vats(names, words)?;
    Ok(Event::Cut(k, from, to))
}

fn noticed(names: &[Str], k: u64, words: &[Str]) -> Result<Event, ScriptFault>
    requires { length names.now ≤ 16 }
    ensures { Reads result (noticed names.now k words.now) }
{
    let (from, to) = two_vats(names, words)?;
    Ok(Event::Notice(k, from, to))
}

fn entry(alloc: Global, names: &[Str], k: u64, words: &[Str]) -> Result<Event, ScriptFault>
    requires { length names.now ≤ 16 }
    ensures { Reads result (entry names.now k words.now) }
{
    let [word, rest @ ..] = words else {
        return Err(ScriptFault::Rule(42));
    };
    match word.as_str() {
        "turn" => turn(names, k, rest),
        "idle" => idle(k, rest),
        "carry" => carried(alloc, names, k, rest),
        "cut" => cut(names, k, rest),
        "notice" => noticed(names, k, rest),
        "inject" => inject(alloc, names, rest),
        _ => Err(ScriptFault::Rule(42)),
    }
}

fn lost(names: &[Str], words: &[Str]) -> Result<Event, ScriptFault>
    requires { length names.now ≤ 16 }
    ensures { Reads result (lost names.now words.now) }
{
    let Some((id, word)) = two_words(words) else {
        return Err(ScriptFault::Rule(42));
    };
    let id = message(names, id)?;
    match word {
        "cut" => Ok(Event::LostCut(id)),
        "broken" => Ok(Event::LostBroken(id)),
        _ => Err(ScriptFault::Rule(42)),
    }
}

fn left_queue(names: &[Str], words: &[Str]) -> Result<Event, ScriptFault>
    requires { length names.now ≤ 16 }
    ensures { Reads result (left_queue names.now words.now) }
{
    match two_words(words) {
        Some((v, id)) => {
            let host = vat(names, v)?;
            let id = message(names, id)?;
            Ok(Event::LeftQueue(host, id))
        }
        None => Err(ScriptFault::Rule(42)),
    }
}

fn left_held(names: &[Str], words: &[Str]) -> Result<Event, ScriptFault>
    requires { length names.now ≤ 16 }
    ensures { Reads result (left_held names.now words.now) }
{
    match three_words(words) {
        Some((v, promise, id)) => {
            let host = vat(names, v)?;
            let promise = name(names, promise)?;
            let id = message(names, id)?;
            Ok(Event::LeftHeld(host, promise, id))
        }
        None => Err(ScriptFault::Rule(42)),
    }
}

fn left_wait(alloc: Global, names: &[Str], words: &[Str]) -> Result<Event, ScriptFault>
    requires { length names.now ≤ 16 }
    ensures { Reads result (left_wait names.now words.now) }
{
    match three_words(words) {
        Some((v, awaited, id)) => {
            let host = vat(names, v)?;
            let awaited = value(alloc, names, awaited)?;
            let id = message(names, id)?;
            Ok(Event::LeftWait(host, awaited, id))
        }
        None => Err(ScriptFault::Rule(42)),
    }
}

/// What is left at the end of a run.
fn left(alloc: Global, names: &[Str], words: &[Str]) -> Result<Event, ScriptFault>
    requires { length names.now ≤ 16 }
    ensures { Reads result (left names.now words.now) }
{
    let [word, rest @ ..] = words else {
        return Err(ScriptFault::Rule(42));
    };
    match word.as_str() {
        "queue" => left_queue(names, rest),
        "held" => left_held(names, rest),
        "wait" => left_wait(alloc, names, rest),
        "link" => left_link(alloc, names, rest),
        _ => Err(ScriptFault::Rule(42)),
    }
}

fn opened(names: &[Str], words: &[Str]) -> Result<Event, ScriptFault>
    requires { length names.now ≤ 16 }
    ensures { Reads result (opened names.now words.now) }
{
    Ok(Event::Open(one_vat(names, words)?))
}

fn frame(alloc: Global, words: &[Str]) -> Result<Event, ScriptFault>
    ensures { Reads result (frame words.now) }
{
    match words {
        [word] => Ok(Event::Frame(bytes_of(alloc, word.as_str())?)),
        _ => Err(ScriptFault::Rule(42)),
    }
}

fn arrived(alloc: Global, names: &[Str], words: &[Str]) -> Result<Event, ScriptFault>
    requires { length names.now ≤ 16 }
    ensures { Reads result (arrived names.now words.now) }
{
    let (list, members) = list_and_members(alloc, names, words)?;
    Ok(Event::Arrived(list, members))
}

fn settled(alloc: Global, names: &[Str], words: &[Str]) -> Result<Event, ScriptFault>
    requires { length names.now ≤ 16 }
    ensures { Reads result (settled names.now words.now) }
{
    let (promise, target) = name_and_value(alloc, names, words)?;
    Ok(Event::Settle(promise, target))
}

fn waiting(names: &[Str], words: &[Str]) -> Result<Event, ScriptFault>
    requires { length names.now ≤ 16 }
    ensures { Reads result (waiting names.now words.now) }
{
    let (promise, other) = two_names(names, words)?;
    Ok(Event::Wait(promise, other))
}

fn viewed(names: &[Str], words: &[Str]) -> Result<Event, ScriptFault>
    requires { length names.now ≤ 16 }
    ensures { Reads result (viewed names.now words.now) }
{
    let (promise, other) = two_names(names, words)?;
    Ok(Event::View(promise, other))
}

fn ended(words: &[Str]) -> Result<Event, ScriptFault>
    ensures { Reads result (ended words.now) }
{
    match words {
        [] => Ok(Event::End),
        _ => Err(ScriptFault::Rule(42)),
    }
}

/// A line that is no entry and of no activation.
fn other_line(alloc: Global, names: &[Str], word: &str, rest: &[Str]) -> Result<Event, ScriptFault>
    requires { length names.now ≤ 16 }
    ensures { Reads result (other_line names.now word.now rest.now) }
{
    match word {
        "open" => opened(names, rest),
        "frame" => frame(alloc, rest),
        "list" => arrived(alloc, names, rest),
        "settle" => settled(alloc, names, rest),
        "wait" => waiting(names, rest),
        "view" => viewed(names, rest),
        "lost" => lost(names, rest),
        "left" => left(alloc, names, rest),
        "end" => ended(rest),
        _ => Err(ScriptFault::Rule(42)),
    }
}

/// What a line says, by its words. Rule 42 fails where they are no line, and rule 43 where they say that a frame was put on a
/// link by hand, or that one was malformed.
pub fn event_of(alloc: Global, names: &[Str], words: &[Str]) -> Result<Event, ScriptFault>
    requires { length names.now ≤ 16 }
    ensures { Reads result (event_of names.now words.now) }
{
    let [word, rest @ ..] = words else {
        return Err(ScriptFault::Rule(42));
    };
    if let Some(a) = activation(word.as_str()) {
        return act(alloc, names, a, rest);
    }
    match count(word.as_str()) {
        Some(k) => entry(alloc, names, k, rest),
        None => other_line(alloc, names, word.as_str(), rest),
    }
}
