//! Texts and characters between quotes.

ghost use Rattle.std.specs.Prelude.{◌≡◌, ◌<◌, ◌++◌, length, take, OnOk, IfOk, string_bytes, chars, encode_utf8_all};
ghost use Rattle.def_text.specs.Quoting.{by_number, escaped_character, quoted, quoted_character, shortened};

use std::alloc::{AllocError, Global};
use std::fmt::Write;

/// How many characters of a text a line shows.
const SHOWN_LENGTH: usize = 32;

/// Appends `\u` and four digits.
fn push_by_number(out: &mut String, code: u32) -> Result<(), AllocError>
    requires { code < 256 }
    ensures { OnOk result (string_bytes out.new ≡ string_bytes out.old ++ by_number code) }
{
    out.push_str("\\u00")?;
    if let Some(digit) = char::from_digit(code / 16, 16) {
        out.push(digit)?;
    }
    if let Some(digit) = char::from_digit(code % 16, 16) {
        out.push(digit)?;
    }
    Ok(())
}

/// Appends a character of a text, as it stands between quotes.
fn push_escaped(out: &mut String, c: char) -> Result<(), AllocError>
    ensures { OnOk result (string_bytes out.new ≡ string_bytes out.old ++ escaped_character c) }
{
    match c {
        '\n' => out.push_str("\\n"),
        '\t' => out.push_str("\\t"),
        '\r' => out.push_str("\\r"),
        '\\' => out.push_str("\\\\"),
        '"' => out.push_str("\\\""),
        '\0'..=' ' if c < ' ' => push_by_number(out, c as u32),
        _ => out.push(c),
    }
}

/// Appends a text between `"`.
#[tactic(auto, using(crate::proofs::QuotingLemmas::escaped_first))]
pub fn push_quoted(out: &mut String, text: &str) -> Result<(), AllocError>
    ensures { OnOk result (string_bytes out.new ≡ string_bytes out.old ++ quoted text.now) }
{
    out.push('"')?;
    for c in text.chars() {
        push_escaped(out, c)?;
    }
    out.push('"')
}

/// A text between `"`: with `\n`, `\t`, `\r`, `\\` and `\"` for those five characters and `\u` with four digits for the
/// other control characters below 32.
pub fn quote(alloc: Global, text: &str) -> Result<String, AllocError>
    ensures { IfOk result (λ spelling. string_bytes spelling ≡ quoted text.now) }
{
    let mut out = String::new(alloc);
    push_quoted(&mut out, text)?;
    Ok(out)
}

/// Appends a character between `'`.
pub fn push_quoted_character(out: &mut String, c: char) -> Result<(), AllocError>
    ensures { OnOk result (string_bytes out.new ≡ string_bytes out.old ++ quoted_character c) }
{
    out.push('\'')?;
    if c == '\'' {
        out.push_str("\\'")?;
    } else {
        push_escaped(out, c)?;
    }
    out.push('\'')
}

/// How many characters a text has.
#[tactic(auto, using(std::proofs::lemmas::Str::chars_from_encodes))]
fn count_characters(text: &str) -> usize
    ensures { result ≡ length (chars text.now) }
{
    text.chars().count()
}

/// The text of the first characters.
fn first_characters(alloc: Global, text: &str, count: usize) -> Result<String, AllocError>
    ensures { IfOk result (λ front. string_bytes front ≡ encode_utf8_all (take count (chars text.now))) }
{
    let mut front = String::new(alloc);
    let mut left = count;
    for c in text.chars() {
        if left == 0 {
            return Ok(front);
        }
        front.push(c)?;
        left -= 1;
    }
    Ok(front)
}

/// Appends a text as a line shows it.
pub fn push_shortened(alloc: Global, out: &mut String, text: &str) -> Result<(), AllocError>
    ensures { OnOk result (string_bytes out.new ≡ string_bytes out.old ++ shortened text.now) }
{
    let count = count_characters(text);
    if count <= SHOWN_LENGTH {
        push_quoted(out, text)
    } else {
        let front = first_characters(alloc, text, SHOWN_LENGTH)?;
        push_quoted(out, front.as_str())?;
        let more = count - SHOWN_LENGTH;
        write!(out, "+{more}")
    }
}
