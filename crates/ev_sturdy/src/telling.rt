//! The text of a sheet.

ghost use Rattle.std.specs.Prelude.{◌≡◌, ◌++◌, [], IfOk, OnOk, string_bytes};
ghost use Rattle.ev_sturdy.specs.Kept.{opened};
ghost use Rattle.ev_sturdy.specs.Answers.{answer_text};
ghost use Rattle.ev_sturdy.specs.Telling.{IsTold, Tells, at_end, due, stop_line, telling, text_of_sheet, with_text, written_line};

use crate::Sturdy;
use crate::answers::{Answer, Reply, answered, push_answer};
use crate::sheet::{Line, Sheet, read_sheet};
use ev_base::Memory;
use ev_intro::Words;
use ev_script::ScriptFault;
use std::alloc::Global;
use std::fmt::Write;

/// What is told of a sheet.
#[derive(Drop)]
pub struct Told {
    pub text: String,
    /// The two draws that gave one number, where nothing more was answered for that.
    pub repeated: Option<(u64, u64)>,
}

/// Appends the line of an answer.
fn push_line(alloc: Global, out: &mut String, said: Answer) -> Result<(), Memory>
    ensures { OnOk result (string_bytes out.new ≡ string_bytes out.old ++ written_line (answer_text said)) }
{
    push_answer(alloc, out, said)?;
    out.push_str("\n")?;
    Ok(())
}

/// Appends the line of two draws that gave one number.
fn push_stop(out: &mut String, first: u64, second: u64) -> Result<(), Memory>
    ensures { OnOk result (string_bytes out.new ≡ string_bytes out.old ++ stop_line first second) }
{
    write!(out, "stop word {first} {second}\n")?;
    Ok(())
}

/// Appends the last line.
fn push_end(out: &mut String) -> Result<(), Memory>
    ensures { OnOk result (string_bytes out.new ≡ string_bytes out.old ++ at_end.text) }
{
    out.push_str("end\n")?;
    Ok(())
}

/// Appends what is told of lines, and gives the two draws that gave one number, where nothing more was answered for that.
fn push_lines(
    alloc: Global,
    out: &mut String,
    sturdy: &mut Sturdy,
    words: &mut Words,
    lines: &[Line],
) -> Result<Option<(u64, u64)>, Memory>
    requires empty { string_bytes out.old ≡ [] }
    requires opened { sturdy.old ≡ opened }
    requires undrawn { words.old.count ≡ 0 }
    ensures { IfOk result (λ repeated. with_text (string_bytes out.new) repeated ≡ telling words.old.key 0 [] lines.now) }
{
    for line in lines {
        match answered(sturdy, words, *line)? {
            Reply::Says(said) => push_line(alloc, out, said)?,
            Reply::Repeats(first, second) => {
                push_stop(out, first, second)?;
                return Ok(Some((first, second)));
            }
        }
    }
    push_end(out)?;
    Ok(None)
}

/// What is told of lines under a key.
fn tell_lines(alloc: Global, key: &[u8; 32], lines: &[Line]) -> Result<Told, Memory>
    ensures { IfOk result (λ told. IsTold told (telling key.now 0 [] lines.now)) }
{
    let mut sturdy = Sturdy::new(alloc);
    let mut words = Words::new(alloc, key);
    let mut text = String::new(alloc);
    let repeated = push_lines(alloc, &mut text, &mut sturdy, &mut words, lines)?;
    Ok(Told { text, repeated })
}

/// What is told of a sheet.
fn tell_sheet(alloc: Global, sheet: &Sheet) -> Result<Told, Memory>
    ensures { IfOk result (λ told. IsTold told (text_of_sheet sheet.now)) }
{
    tell_lines(alloc, &sheet.key, sheet.lines.as_slice())
}

/// The text of the lines that bytes are, or the first rule that the bytes break. A line that is refused changes nothing.
pub fn tell(alloc: Global, bytes: &[u8]) -> Result<Told, ScriptFault>
    ensures { Tells result (due bytes.now) }
{
    let sheet = read_sheet(alloc, bytes)?;
    Ok(tell_sheet(alloc, &sheet)?)
}
