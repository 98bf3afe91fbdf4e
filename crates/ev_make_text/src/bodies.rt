//! What the lines under a head say.

ghost use Rattle.std.specs.Prelude.{◌≡◌, ◌++◌, ◌∷◌, IfOk, OnOk};
ghost use Rattle.std.specs.List.{filter, flat_map, join_with_byte};
ghost use Rattle.ev_make_text.specs.Bars.{listed};
ghost use Rattle.def_vats.specs.Reading.{behind_bar, ended, is_entry, plain_source, quoted_source, trimmed};

use ev_base::{Memory, Seq, Str};
use std::alloc::Global;

/// The lines up to the last that is not empty.
fn trimmed(lines: &[Str]) -> &[Str]
    ensures { result.now ≡ trimmed lines.now }
{
    let mut end = lines.len();
    while end > 0 {
        if !lines[end - 1].is_empty() {
            return &lines[..end];
        }
        end -= 1;
    }
    &lines[..0]
}

/// Appends the lines, each with its line feed.
fn push_ended(out: &mut Str, lines: &[Str]) -> Result<(), Memory>
    ensures { OnOk result (out.new ≡ out.old ++ flat_map ended lines.now) }
{
    for line in lines {
        out.push(line.as_str())?;
        out.push("\n")?;
    }
    Ok(())
}

/// The source that stands as it is under a head.
pub fn plain_source(alloc: Global, lines: &[Str]) -> Result<Str, Memory>
    ensures { IfOk result (λ source. source ≡ plain_source lines.now) }
{
    let mut source = Str::new(alloc);
    push_ended(&mut source, trimmed(lines))?;
    Ok(source)
}

/// What stands behind the bars of the lines that begin with one.
fn behind_bars(alloc: Global, lines: &[Str]) -> Result<Seq<Str>, Memory>
    ensures { IfOk result (λ parts. parts ≡ flat_map behind_bar lines.now) }
{
    let mut parts = Seq::new(alloc);
    for line in lines {
        if let Some(part) = behind_bar(line.as_str()) {
            parts.push(Str::copy_of(alloc, part)?)?;
        }
    }
    Ok(parts)
}

/// What stands behind the bar with which a line begins.
fn behind_bar(line: &str) -> Option<&str>
    ensures { listed (λ part. part.now) result ≡ behind_bar line.now }
{
    line.strip_prefix('|')
}

/// Appends the parts, each behind a line feed.
fn push_parts(out: &mut Str, parts: &[Str]) -> Result<(), Memory>
    ensures { OnOk result (out.new ≡ out.old ++ flat_map (λ part. 10 ∷ part) parts.now) }
{
    for part in parts {
        out.push("\n")?;
        out.push(part.as_str())?;
    }
    Ok(())
}

/// The parts, with a line feed between two.
fn joined(alloc: Global, parts: &[Str]) -> Result<Str, Memory>
    ensures { IfOk result (λ text. text ≡ join_with_byte 10 parts.now) }
{
    let [first, rest @ ..] = parts else {
        return Ok(Str::new(alloc));
    };
    let mut text = Str::copy_of(alloc, first.as_str())?;
    push_parts(&mut text, rest)?;
    Ok(text)
}

/// The source whose lines stand behind bars under a head.
pub(crate) fn quoted_source(alloc: Global, lines: &[Str]) -> Result<Str, Memory>
    ensures { IfOk result (λ source. source ≡ quoted_source lines.now) }
{
    let parts = behind_bars(alloc, lines)?;
    joined(alloc, parts.as_slice())
}

/// Whether the line of a schedule is an entry.
fn is_entry(line: &str) -> bool
    ensures { result ≡ is_entry line.now }
{
    match line.as_bytes() {
        [] => false,
        [first, ..] => *first != b'#',
    }
}

/// Appends the entries among the lines.
pub(crate) fn push_entries(
    alloc: Global,
    schedule: &mut Seq<Str>,
    lines: &[Str],
) -> Result<(), Memory>
    ensures { OnOk result (schedule.new ≡ schedule.old ++ filter is_entry lines.now) }
{
    for line in lines {
        if is_entry(line.as_str()) {
            schedule.push(Str::copy_of(alloc, line.as_str())?)?;
        }
    }
    Ok(())
}
