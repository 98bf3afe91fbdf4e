//! Lines and heads.

ghost use Rattle.std.specs.Prelude.{◌≡◌, ◌∷◌, ◌++◌, OnOk, map};
ghost use Rattle.def_vats.specs.Reading.{ended};
ghost use Rattle.ev_make_write.specs.Writing.{barred, head_line, known_words, lines_text, spaced, vat_words};

use def_vats::ToldVat;
use ev_base::{Memory, Str};

/// Appends a line with its line feed.
pub(crate) fn push_line(out: &mut Str, line: &str) -> Result<(), Memory>
    ensures { OnOk result (out.new ≡ out.old ++ ended line.now) }
{
    out.push(line)?;
    out.push("\n")
}

/// Appends the lines.
pub(crate) fn push_lines(out: &mut Str, lines: &[Str]) -> Result<(), Memory>
    ensures { OnOk result (out.new ≡ out.old ++ lines_text lines.now) }
{
    for line in lines {
        push_line(out, line.as_str())?;
    }
    Ok(())
}

/// Appends a line behind a bar.
fn push_bar(out: &mut Str, line: &str) -> Result<(), Memory>
    ensures { OnOk result (out.new ≡ out.old ++ ended (barred line.now)) }
{
    out.push("|")?;
    push_line(out, line)
}

/// Appends the lines, each behind a bar.
pub(crate) fn push_barred(out: &mut Str, lines: &[Str]) -> Result<(), Memory>
    ensures { OnOk result (out.new ≡ out.old ++ lines_text (map barred lines.now)) }
{
    for line in lines {
        push_bar(out, line.as_str())?;
    }
    Ok(())
}

/// Appends a word behind a space.
fn push_word(out: &mut Str, word: &str) -> Result<(), Memory>
    ensures { OnOk result (out.new ≡ out.old ++ 32 ∷ word.now) }
{
    out.push(" ")?;
    out.push(word)
}

/// Appends the words, each behind a space.
fn push_spaced(out: &mut Str, words: &[Str]) -> Result<(), Memory>
    ensures { OnOk result (out.new ≡ out.old ++ spaced words.now) }
{
    for word in words {
        push_word(out, word.as_str())?;
    }
    Ok(())
}

/// Appends whom a vat knows.
fn push_known(out: &mut Str, names: &[Str]) -> Result<(), Memory>
    ensures { OnOk result (out.new ≡ out.old ++ spaced (known_words names.now)) }
{
    if names.is_empty() {
        return Ok(());
    }
    push_word(out, "knows")?;
    push_spaced(out, names)
}

/// Appends the head of a vat.
pub(crate) fn push_head(out: &mut Str, verb: &str, vat: &ToldVat) -> Result<(), Memory>
    ensures { OnOk result (out.new ≡ out.old ++ ended (head_line (vat_words verb.now vat.now))) }
{
    out.push("===")?;
    push_word(out, verb)?;
    push_word(out, vat.name.as_str())?;
    push_known(out, vat.knows.as_slice())?;
    out.push("\n")
}
