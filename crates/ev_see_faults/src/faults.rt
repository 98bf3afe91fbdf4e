//! What is told of a text that is no history.

ghost use Rattle.std.specs.Prelude.{◌≡◌, ◌<◌, ◌-◌, ◌++◌, codes, length, map, take, is_ok, Some, IfOk, string_bytes};
ghost use Rattle.ev_text.specs.Lines.{lines};
ghost use Rattle.ev_trace.specs.Reading.{read};
ghost use Rattle.ev_see_faults.specs.Faults.{bad_from, bad_text, end_fault, end_text, ends, explained, fault, is_line, line_fault, lines_fault, text_fault};

use ev_base::{Memory, Seq, Str};
use ev_script::ScriptFault;
use ev_see_words::word;
use ev_text::{lines, text_of};
use ev_trace::read_trace;
use std::alloc::Global;

/// Whether bytes are a history.
pub fn is_history(alloc: Global, bytes: &[u8]) -> Result<bool, Memory>
    ensures { IfOk result (λ yes. yes ≡ is_ok (read bytes.now)) }
{
    match read_trace(alloc, bytes) {
        Ok(_trace) => Ok(true),
        Err(ScriptFault::Rule(_)) => Ok(false),
        Err(ScriptFault::Memory) => Err(Memory),
    }
}

/// Whether a line is one of a history.
#[tactic(auto, unfolding(crate::specs::Faults::is_line))]
fn is_line(alloc: Global, line: &str) -> Result<bool, Memory>
    ensures { IfOk result (λ yes. yes ≡ is_line line.now) }
{
    let mut alone = String::from_str(alloc, line)?;
    alone.push_str("\nend\n")?;
    is_history(alloc, alone.as_bytes())
}

/// Whether a line may be the last of a history.
#[tactic(auto, unfolding(crate::specs::Faults::ends))]
fn ends(alloc: Global, line: &str) -> Result<bool, Memory>
    ensures { IfOk result (λ yes. yes ≡ ends line.now) }
{
    let mut alone = String::from_str(alloc, line)?;
    alone.push_str("\n")?;
    is_history(alloc, alone.as_bytes())
}

/// The place of the first line that is none of a history, from 1.
fn first_bad(alloc: Global, lines: &[Str]) -> Result<Option<usize>, Memory>
    ensures { IfOk result (λ found. found ≡ bad_from 1 lines.now) }
{
    for (number, line) in lines.iter().enumerate() {
        let is_one = is_line(alloc, line.as_str())?;
        if !is_one {
            return Ok(Some(number + 1));
        }
    }
    Ok(None)
}

/// A line of words on standard error.
fn fault(alloc: Global, why: &str) -> Result<String, Memory>
    ensures { IfOk result (λ text. string_bytes text ≡ fault why.now) }
{
    Ok(format!(in alloc; "evat_see: {why}\n")?)
}

/// The words for a last line, counted from 1, that is none.
fn end_text(alloc: Global, number: usize, line: &str) -> Result<String, Memory>
    ensures { IfOk result (λ text. string_bytes text ≡ end_text number line.now) }
{
    Ok(format!(in alloc; "line {number}: the last line is neither `end` nor a stop: {line}")?)
}

/// What is told of the last line, counted from 1, where those before it are lines.
#[tactic(auto, unfolding(crate::specs::Faults::end_fault))]
fn end_fault(alloc: Global, number: usize, line: &str) -> Result<String, Memory>
    ensures { IfOk result (λ text. string_bytes text ≡ end_fault number line.now) }
{
    if ends(alloc, line)? {
        return fault(alloc, "more than 16 vats are named");
    }
    let why = end_text(alloc, number, line)?;
    Ok(fault(alloc, why.as_str())?)
}

/// The words for a line, counted from 1, that is none.
fn bad_text(alloc: Global, number: usize, line: &str) -> Result<String, Memory>
    ensures { IfOk result (λ text. string_bytes text ≡ bad_text number line.now) }
{
    Ok(format!(in alloc; "line {number}: no line of a history: {line}")?)
}

/// What is told of a line that is none, by its place from 1.
#[tactic(auto, unfolding(crate::specs::Faults::line_fault))]
fn bad_line(alloc: Global, lines: &[Str], place: usize) -> Result<String, Memory>
    ensures { IfOk result (λ text. string_bytes text ≡ line_fault lines.now (Some place)) }
{
    let why = bad_text(alloc, place, word(lines, place.saturating_sub(1)))?;
    Ok(fault(alloc, why.as_str())?)
}

/// What is told of lines of which those but for the last are lines, or one at this place is none.
#[tactic(auto, unfolding(crate::specs::Faults::line_fault))]
fn line_fault(alloc: Global, lines: &[Str], bad: Option<usize>) -> Result<String, Memory>
    ensures { IfOk result (λ text. string_bytes text ≡ line_fault lines.now bad) }
{
    match bad {
        Some(place) => bad_line(alloc, lines, place),
        None => end_fault(
            alloc,
            lines.len(),
            word(lines, lines.len().saturating_sub(1)),
        ),
    }
}

/// What is told of lines.
#[tactic(auto, unfolding(crate::specs::Faults::lines_fault))]
fn lines_fault(alloc: Global, lines: &[Str]) -> Result<String, Memory>
    ensures { IfOk result (λ text. string_bytes text ≡ lines_fault lines.now) }
{
    match lines {
        [] => fault(alloc, "the input is empty"),
        [_, rest @ ..] => {
            let bad = first_bad(alloc, &lines[..rest.len()])?;
            line_fault(alloc, lines, bad)
        }
    }
}

/// The lines, each as a text of its own.
fn owned(alloc: Global, lines: &[&str]) -> Result<Seq<Str>, Memory>
    ensures { IfOk result (λ found. found ≡ map (λ line. line.now) lines.now) }
{
    let mut found = Seq::new(alloc);
    for line in lines {
        found.push(Str::copy_of(alloc, line)?)?;
    }
    Ok(found)
}

/// What is told of a text.
#[tactic(auto, unfolding(crate::specs::Faults::text_fault))]
fn text_fault(alloc: Global, text: &str) -> Result<String, Memory>
    ensures { IfOk result (λ told. string_bytes told ≡ text_fault (lines text.now)) }
{
    let Some(found) = lines(alloc, text)? else {
        return fault(alloc, "the last line has no line feed");
    };
    let found = owned(alloc, found.as_slice())?;
    lines_fault(alloc, found.as_slice())
}

/// What is told of bytes that are no history: the place and the words of the first line that is none, each line judged
/// by itself, or what else is wrong.
#[tactic(auto, unfolding(crate::specs::Faults::bytes_fault))]
pub fn explain(alloc: Global, bytes: &[u8]) -> Result<String, Memory>
    ensures { IfOk result (λ told. string_bytes told ≡ explained bytes.now) }
{
    match text_of(bytes) {
        None => fault(alloc, "the input is not UTF-8"),
        Some(text) => text_fault(alloc, text),
    }
}
