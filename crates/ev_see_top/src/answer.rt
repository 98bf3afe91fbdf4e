//! What is written for a question.

ghost use Rattle.std.specs.Prelude.{◌≡◌, map, unwrap_or, Ok, IfOk, string_bytes};
ghost use Rattle.ev_trace.specs.Reading.{read};
ghost use Rattle.def_see.specs.Lines.{placed};
ghost use Rattle.ev_text.specs.Lines.{lines, text_of};
ghost use Rattle.ev_trace_words.specs.Words.{words_of};
ghost use Rattle.ev_see_verdicts.specs.Told.{texts, told_text};
ghost use Rattle.ev_see_top.specs.Paying.{IsPlain};
ghost use Rattle.ev_see_top.specs.Due.{IsFor, IsWhy, IsWhyOf, debt_of, fixed, lines_in, lines_of, no_history, status_of, told, told_due, told_in, told_of, too_long, verdicts_due};

use crate::question::Question;
use crate::status::SeeStatus;
use def_event::Trace;
use def_see::Line;
use def_why::{About, Fault, Reason, Refusal};
use ev_base::{Memory, Msg, Name, Str, VatId};
use ev_script::ScriptFault;
use ev_see_draw::sequence_diagram;
use ev_see_faults::{explain, is_history};
use ev_see_lives::place;
use ev_see_rows::messages_text;
use ev_see_verdicts::{Overtaking, Point, Unfounded, Verdicts, all_yes, told_text};
use ev_see_why::judge;
use ev_text::{lines, text_of};
use ev_trace::read_trace;
use std::alloc::Global;

/// What is written for `--help`.
pub const HELP: &str =
    "evat_see reads a history on standard input, as evat run writes it, and answers a question on it.\n\nUsage: evat_see WORDS < HISTORY\n\n    messages       what became of each message, and what each root came to\n    draw           a sequence diagram of it, in the text of Mermaid\n    why            what check says of it, whether each message is taken once and where it was carried to,\n                   and whether each name settles once at a vat; where not, the line and the point\n    why --strict   the same, and whether what check believes holds\n    --help         this text\n    --version      the version\n\nStatus: 0 it is answered, 1 and a verdict of why is no, 2 other words, 3 a fault of reading, 4 of writing, 5 more than 16 MiB, 6 no history, 11 no memory\n";

/// What is written for `--version`.
pub const VERSION: &str = "evat_see 2\n";

/// What is told of words that ask nothing.
pub const USAGE: &str = "evat_see: no such words; evat_see --help lists those that it answers\n";

/// What is told of an input that is too long.
pub const TOO_LONG: &str = "evat_see: the input has more than 16777216 bytes\n";

/// How the program ends, and what it writes to standard output and standard error.
#[derive(Drop)]
pub struct Answer {
    pub status: SeeStatus,
    pub out: String,
    pub err: String,
}

/// What is told of lines: their diagram, or the rows of their messages.
#[tactic(auto, unfolding(crate::specs::Due::told))]
fn told(alloc: Global, drawn: bool, lines: &[Line]) -> Result<String, Memory>
    ensures { IfOk result (λ text. string_bytes text ≡ told drawn lines.now) }
{
    if drawn {
        return sequence_diagram(alloc, lines);
    }
    messages_text(alloc, lines)
}

/// The same of a text.
#[tactic(auto, using(crate::proofs::LineLemmas::fused), unfolding(crate::specs::Due::told_of))]
fn told_of(alloc: Global, drawn: bool, text: &str) -> Result<String, Memory>
    ensures { IfOk result (λ found. string_bytes found ≡ told_of drawn (lines text.now)) }
{
    match lines(alloc, text)? {
        Some(found) => {
            let placed = place(alloc, found.as_slice())?;
            Ok(told(alloc, drawn, placed.as_slice())?)
        }
        None => told(alloc, drawn, &[]),
    }
}

/// The same of bytes.
#[tactic(auto, unfolding(crate::specs::Due::told_in))]
fn told_in(alloc: Global, drawn: bool, bytes: &[u8]) -> Result<String, Memory>
    ensures { IfOk result (λ found. string_bytes found ≡ told_in drawn (text_of bytes.now)) }
{
    match text_of(bytes) {
        Some(text) => told_of(alloc, drawn, text),
        None => told(alloc, drawn, &[]),
    }
}

/// What is written for bytes whose diagram, or whose messages, are asked for.
#[tactic(auto, unfolding(crate::specs::Due::told_due))]
pub fn answer_told(alloc: Global, drawn: bool, bytes: &[u8]) -> Result<Answer, Memory>
    ensures due { IfOk result (λ answer. IsFor answer (told_due drawn bytes.now)) }
    ensures plain { IfOk result (λ answer. IsPlain answer.status) }
{
    if is_history(alloc, bytes)? {
        return Ok(Answer {
            status: SeeStatus::Done,
            out: told_in(alloc, drawn, bytes)?,
            err: String::new(alloc),
        });
    }
    Ok(Answer {
        status: SeeStatus::NoHistory,
        out: String::new(alloc),
        err: explain(alloc, bytes)?,
    })
}

/// Why bytes are no history.
fn answer_no_history(alloc: Global, bytes: &[u8]) -> Result<Answer, Memory>
    ensures due { IfOk result (λ answer. IsFor answer (no_history bytes.now)) }
    ensures plain { IfOk result (λ answer. IsPlain answer.status) }
{
    Ok(Answer {
        status: SeeStatus::NoHistory,
        out: String::new(alloc),
        err: explain(alloc, bytes)?,
    })
}

/// How the program ends on verdicts.
fn status_of(found: &Verdicts) -> SeeStatus
    ensures is { result ≡ status_of found.now }
    ensures plain { IsPlain result }
{
    if all_yes(found) {
        return SeeStatus::Done;
    }
    SeeStatus::Refused
}

/// The text of verdicts, by the names of the vats and the lines.
fn told_lines(alloc: Global, names: &[Str], text: &str, found: &Verdicts) -> Result<String, Memory>
    ensures { IfOk result (λ told. string_bytes told ≡ told_text names.now (lines_of (lines text.now)) found.now) }
{
    match lines(alloc, text)? {
        Some(parts) => told_text(alloc, names, parts.as_slice(), found),
        None => told_text(alloc, names, &[], found),
    }
}

/// The same of bytes.
fn told_bytes(
    alloc: Global,
    names: &[Str],
    bytes: &[u8],
    found: &Verdicts,
) -> Result<String, Memory>
    ensures { IfOk result (λ told. string_bytes told ≡ told_text names.now (lines_in (text_of bytes.now)) found.now) }
{
    match text_of(bytes) {
        Some(text) => told_lines(alloc, names, text, found),
        None => told_text(alloc, names, &[], found),
    }
}

/// What is written for a history of which it is asked why it is refused.
fn answer_trace(
    alloc: Global,
    is_strict: bool,
    bytes: &[u8],
    trace: &Trace,
) -> Result<Answer, Memory>
    ensures due { IfOk result (λ answer. IsWhyOf is_strict bytes.now (Ok trace.now) (debt_of answer)) }
    ensures plain { IfOk result (λ answer. IsPlain answer.status) }
{
    // Each type that verdicts hold has to be named where they are dropped, or the checker of borrows does not find its module.
    let _order: Option<Overtaking> = None;
    let _uses: Option<Unfounded> = None;
    let _taken: Option<Refusal> = None;
    let _about: Option<About> = None;
    let _reason: Option<Reason> = None;
    let _fault: Option<Fault> = None;
    let _vat: Option<VatId> = None;
    let _point: Option<Point> = None;
    let _name: Option<Name> = None;
    let _message: Option<Msg> = None;
    let found = judge(alloc, trace, is_strict)?;
    Ok(Answer {
        status: status_of(&found),
        out: told_bytes(alloc, trace.names.as_slice(), bytes, &found)?,
        err: String::new(alloc),
    })
}

/// What is written for bytes of which it is asked why they are refused.
pub fn answer_why(alloc: Global, is_strict: bool, bytes: &[u8]) -> Result<Answer, Memory>
    ensures due { IfOk result (λ answer. IsWhy is_strict bytes.now (debt_of answer)) }
    ensures plain { IfOk result (λ answer. IsPlain answer.status) }
{
    match read_trace(alloc, bytes) {
        Ok(trace) => answer_trace(alloc, is_strict, bytes, &trace),
        Err(ScriptFault::Rule(_)) => answer_no_history(alloc, bytes),
        Err(ScriptFault::Memory) => Err(Memory),
    }
}

/// What is written for an input that is too long.
pub fn answer_too_long(alloc: Global) -> Result<Answer, Memory>
    ensures due { IfOk result (λ answer. IsFor answer too_long) }
    ensures plain { IfOk result (λ answer. IsPlain answer.status) }
{
    Ok(Answer {
        status: SeeStatus::TooLong,
        out: String::new(alloc),
        err: String::from_str(alloc, TOO_LONG)?,
    })
}

/// What is written where no input is asked for.
#[tactic(auto, unfolding(crate::specs::Due::fixed))]
pub fn answer_fixed(alloc: Global, question: Question) -> Result<Answer, Memory>
    ensures due { IfOk result (λ answer. IsFor answer (fixed question)) }
    ensures plain { IfOk result (λ answer. IsPlain answer.status) }
{
    match question {
        Question::Help => Ok(Answer {
            status: SeeStatus::Done,
            out: String::from_str(alloc, HELP)?,
            err: String::new(alloc),
        }),
        Question::Version => Ok(Answer {
            status: SeeStatus::Done,
            out: String::from_str(alloc, VERSION)?,
            err: String::new(alloc),
        }),
        _ => Ok(Answer {
            status: SeeStatus::Usage,
            out: String::new(alloc),
            err: String::from_str(alloc, USAGE)?,
        }),
    }
}
