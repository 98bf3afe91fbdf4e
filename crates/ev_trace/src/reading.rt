//! What the text of a run says.

ghost use Rattle.std.specs.Prelude.{◌≡◌, ◌<◌, ◌≤◌, ◌-◌, IfOk, length, map, take, is_some, Some};
ghost use Rattle.std.specs.List.{list_all};
ghost use Rattle.ev_script.specs.Script.{Reads};
ghost use Rattle.ev_trace_words.specs.Words.{words_of};
ghost use Rattle.ev_trace_words.specs.Values.{all_of};
ghost use Rattle.ev_trace_lines.specs.Events.{event_of};
ghost use Rattle.ev_trace.specs.Reading.{events_of, is_end, is_reason, is_stop, kept, read, read_by, read_lines, read_text, somes, trace_of};

use crate::naming::names_in;
use def_event::Trace;
use def_event::event::Event;
use ev_base::{Memory, Seq, Str};
use ev_script::ScriptFault;
use ev_text::{lines, text_of};
use ev_trace_lines::lines::event_of;
use ev_trace_words::parts::count;
use ev_trace_words::words::words_of;
use std::alloc::Global;

/// Whether the words say why a run stopped.
fn is_reason(words: &[Str]) -> bool
    ensures { result ≡ is_reason words.now }
{
    match words {
        [kind, step] => {
            (kind.as_str() == "fuel" || kind.as_str() == "depth") && count(step.as_str()).is_some()
        }
        [kind, first, second] => {
            kind.as_str() == "word"
                && count(first.as_str()).is_some()
                && count(second.as_str()).is_some()
        }
        _ => false,
    }
}

/// Whether the words are the line of a stop.
fn is_stop(words: &[Str]) -> bool
    ensures { result ≡ is_stop words.now }
{
    match words {
        [] => false,
        [word, rest @ ..] => word.as_str() == "stop" && is_reason(rest),
    }
}

fn is_end(words: &[Str]) -> bool
    ensures { result ≡ is_end words.now }
{
    match words {
        [word] => word.as_str() == "end",
        _ => false,
    }
}

/// The words of each line.
fn each_words(alloc: Global, lines: &[Str]) -> Result<Seq<Seq<Str>>, Memory>
    ensures { IfOk result (λ found. found ≡ map words_of lines.now) }
{
    let mut found = Seq::new(alloc);
    for line in lines {
        found.push(words_of(alloc, line.as_str())?)?;
    }
    Ok(found)
}

/// The lines, each as a text of its own.
fn owned(alloc: Global, lines: &[&str]) -> Result<Seq<Str>, Memory>
    ensures { IfOk result (λ found. found ≡ map (λ line. line.now) lines.now) }
{
    let mut found = Seq::new(alloc);
    for line in lines {
        found.push(Str::copy_of(alloc, line)?)?;
    }
    Ok(found)
}

/// The event of a line, and none of a line that tells none.
fn kept(alloc: Global, names: &[Str], words: &[Str]) -> Result<Option<Event>, ScriptFault>
    requires { length names.now ≤ 16 }
    ensures { Reads result (kept (event_of names.now words.now)) }
{
    match event_of(alloc, names, words) {
        Ok(event) => Ok(Some(event)),
        Err(ScriptFault::Rule(43)) => Ok(None),
        Err(fault) => Err(fault),
    }
}

/// The event of each line.
fn each_kept(
    alloc: Global,
    names: &[Str],
    lines: &[Seq<Str>],
) -> Result<Seq<Option<Event>>, ScriptFault>
    requires { length names.now ≤ 16 }
    ensures { Reads result (all_of (λ words. kept (event_of names.now words)) lines.now) }
{
    let mut found = Seq::new(alloc);
    for words in lines {
        match kept(alloc, names, words.as_slice()) {
            Ok(event) => found.push(event)?,
            Err(fault) => return Err(fault),
        }
    }
    Ok(found)
}

/// Whether each line tells an event.
fn all_told(found: &[Option<Event>]) -> bool
    ensures { result ≡ list_all is_some found.now }
{
    found.iter().all(|event| event.is_some())
}

/// The events that were told.
#[tactic(auto, using(crate::proofs::ReadingLemmas::somes_some, crate::proofs::ReadingLemmas::somes_none))]
fn somes(alloc: Global, found: Seq<Option<Event>>) -> Result<Seq<Event>, Memory>
    ensures { IfOk result (λ events. events ≡ somes found) }
{
    let mut events = Seq::new(alloc);
    for event in found.into_vec() {
        match event {
            Some(event) => events.push(event)?,
            None => {}
        }
    }
    Ok(events)
}

/// The event of each line. Rule 43 fails where a line tells none.
fn events_of(alloc: Global, names: &[Str], lines: &[Seq<Str>]) -> Result<Seq<Event>, ScriptFault>
    requires { length names.now ≤ 16 }
    ensures { Reads result (events_of names.now lines.now) }
{
    let found = each_kept(alloc, names, lines)?;
    if !all_told(found.as_slice()) {
        return Err(ScriptFault::Rule(43));
    }
    Ok(somes(alloc, found)?)
}

/// What lines say that tell events, and with which line the run stopped.
fn trace_of(alloc: Global, lines: &[Seq<Str>], stop: Option<Str>) -> Result<Trace, ScriptFault>
    ensures { Reads result (trace_of lines.now stop) }
{
    let names = names_in(alloc, lines)?;
    if names.len() > 16 {
        return Err(ScriptFault::Rule(42));
    }
    let history = events_of(alloc, names.as_slice(), lines)?;
    Ok(Trace {
        history,
        names,
        stop,
    })
}

/// What lines say, the last of which is the line of a stop.
fn stopped(alloc: Global, lines: &[Str], last: &str) -> Result<Trace, ScriptFault>
    requires { 0 < length lines.now }
    ensures { Reads result (trace_of (map words_of (take (length lines.now - 1) lines.now)) (Some last.now)) }
{
    let told = each_words(alloc, &lines[..lines.len() - 1])?;
    let stop = Str::copy_of(alloc, last)?;
    trace_of(alloc, told.as_slice(), Some(stop))
}

/// What lines say, the last of which is this one.
fn read_by(alloc: Global, lines: &[Str], last: &str) -> Result<Trace, ScriptFault>
    requires { 0 < length lines.now }
    ensures { Reads result (read_by lines.now (Some last.now)) }
{
    let words = words_of(alloc, last)?;
    if is_stop(words.as_slice()) {
        return stopped(alloc, lines, last);
    }
    if is_end(words.as_slice()) {
        let told = each_words(alloc, lines)?;
        return trace_of(alloc, told.as_slice(), None);
    }
    Err(ScriptFault::Rule(42))
}

/// What lines say.
fn read_lines(alloc: Global, lines: &[Str]) -> Result<Trace, ScriptFault>
    ensures { Reads result (read_lines lines.now) }
{
    if lines.len() == 0 {
        return Err(ScriptFault::Rule(42));
    }
    read_by(alloc, lines, lines[lines.len() - 1].as_str())
}

/// What a text says.
fn read_text(alloc: Global, text: &str) -> Result<Trace, ScriptFault>
    ensures { Reads result (read_text text.now) }
{
    let Some(found) = lines(alloc, text)? else {
        return Err(ScriptFault::Rule(42));
    };
    let found = owned(alloc, found.as_slice())?;
    read_lines(alloc, found.as_slice())
}

/// Reads the text of a run. `Rule(41)` comes exactly where the bytes are not UTF-8; else `Rule(42)` exactly where a line is
/// none, or the text does not end with `end` or the line of a stop and its line feed, or more than 16 vats are named; else
/// `Rule(43)` exactly where a line says that a frame was put on a link by hand, or that one was malformed. `Memory` comes only
/// for want of memory.
pub fn read_trace(alloc: Global, bytes: &[u8]) -> Result<Trace, ScriptFault>
    ensures { Reads result (read bytes.now) }
{
    match text_of(bytes) {
        None => Err(ScriptFault::Rule(41)),
        Some(text) => read_text(alloc, text),
    }
}
