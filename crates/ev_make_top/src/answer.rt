//! What is written for a question.

ghost use Rattle.std.specs.Prelude.{◌≡◌, [], IfOk, string_bytes};
ghost use Rattle.ev_make_top.specs.declared.status.MakeStatus.{MakeStatus};
ghost use Rattle.ev_make_top.specs.Due.{IsFor, due, fixed, head_text, script_due, text_due, too_long};

use crate::question::Question;
use crate::status::MakeStatus;
use ev_base::Memory;
use ev_make_json::write_script;
use ev_make_text::{TextFault, read_text};
use ev_text::text_of;
use std::alloc::Global;

/// What is written for `--help`.
pub const HELP: &str =
    "evat_make helps to write scripts for evat.\n\nUsage: evat_make WORDS < TEXT\n\n    script      the script in JSON of a text of vats\n    --help      this text\n    --version   the version\n\nA text of vats has heads, each with lines under it: === vat NAME, === vat NAME knows NAME .., === schedule,\n=== key DIGITS, === fuel NUMBER, and === quoted NAME .. for a source whose lines stand behind | signs.\n\nStatus: 0 it is written, 2 other words, 3 a fault of reading, 4 of writing, 5 more than 1 MiB, 6 the text is refused, 11 no memory\n";

/// What is written for `--version`.
pub const VERSION: &str = "evat_make 1\n";

/// What is told of words that ask nothing.
pub const USAGE: &str = "evat_make: no such words; evat_make --help lists those that it knows\n";

/// What is told of an input that is no text.
pub const NO_TEXT: &str = "evat_make: the input is not UTF-8\n";

/// What is told of an input that is too long.
pub const TOO_LONG: &str = "evat_make: the input has more than 1048576 bytes\n";

/// How the program ends, and what it writes to standard output and standard error.
#[derive(Drop)]
pub struct Answer {
    pub status: MakeStatus,
    pub out: String,
    pub err: String,
}

/// The words for a head that says nothing, by the number of its line.
fn head_text(alloc: Global, line: usize) -> Result<String, Memory>
    ensures { IfOk result (λ text. string_bytes text ≡ head_text line) }
{
    Ok(format!(in alloc; "evat_make: line {line}: no such head; evat_make --help lists them\n")?)
}

/// What is written of a text that is refused.
fn refuse(alloc: Global, err: String) -> Answer
    ensures { IsFor result (record { status = MakeStatus.Refused; out = []; err = string_bytes err }) }
{
    Answer {
        status: MakeStatus::Refused,
        out: String::new(alloc),
        err,
    }
}

/// What is written for a text whose script is asked for.
#[tactic(auto, unfolding(crate::specs::Due::text_due))]
fn answer_text(alloc: Global, text: &str) -> Result<Answer, Memory>
    ensures { IfOk result (λ answer. IsFor answer (text_due text.now)) }
{
    match read_text(alloc, text) {
        Ok(told) => Ok(Answer {
            status: MakeStatus::Done,
            out: write_script(alloc, &told)?,
            err: String::new(alloc),
        }),
        Err(TextFault::Line(line)) => Ok(refuse(alloc, head_text(alloc, line)?)),
        Err(TextFault::Memory) => Err(Memory),
    }
}

/// What is written for bytes whose script is asked for.
#[tactic(auto, unfolding(crate::specs::Due::script_due))]
pub fn answer_script(alloc: Global, bytes: &[u8]) -> Result<Answer, Memory>
    ensures { IfOk result (λ answer. IsFor answer (script_due bytes.now)) }
{
    match text_of(bytes) {
        Some(text) => answer_text(alloc, text),
        None => Ok(refuse(alloc, String::from_str(alloc, NO_TEXT)?)),
    }
}

/// What is written for an input that is too long.
pub fn answer_too_long(alloc: Global) -> Result<Answer, Memory>
    ensures { IfOk result (λ answer. IsFor answer too_long) }
{
    Ok(Answer {
        status: MakeStatus::TooLong,
        out: String::new(alloc),
        err: String::from_str(alloc, TOO_LONG)?,
    })
}

/// What is written where no input is asked for.
#[tactic(auto, unfolding(crate::specs::Due::fixed))]
pub fn answer_fixed(alloc: Global, question: Question) -> Result<Answer, Memory>
    ensures { IfOk result (λ answer. IsFor answer (fixed question)) }
{
    match question {
        Question::Help => Ok(Answer {
            status: MakeStatus::Done,
            out: String::from_str(alloc, HELP)?,
            err: String::new(alloc),
        }),
        Question::Version => Ok(Answer {
            status: MakeStatus::Done,
            out: String::from_str(alloc, VERSION)?,
            err: String::new(alloc),
        }),
        _ => Ok(Answer {
            status: MakeStatus::Usage,
            out: String::new(alloc),
            err: String::from_str(alloc, USAGE)?,
        }),
    }
}
