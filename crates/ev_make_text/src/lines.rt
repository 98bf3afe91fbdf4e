//! Lines, heads, and the words of a head.

ghost use Rattle.std.specs.Prelude.{◌≡◌, IfOk, map, option_map};
ghost use Rattle.std.specs.List.{slice_split};
ghost use Rattle.ev_text.specs.Lines.{is_line_feed, is_space};
ghost use Rattle.def_vats.specs.Reading.{head_of, is_head, lines_of, under, words_of};

use ev_base::{Memory, Seq, Str};
use ev_text::split;
use std::alloc::Global;

/// Texts of their own.
fn copies(alloc: Global, parts: &[&str]) -> Result<Seq<Str>, Memory>
    ensures { IfOk result (λ copies. copies ≡ map (λ part. part.now) parts.now) }
{
    let mut copies = Seq::new(alloc);
    for part in parts {
        copies.push(Str::copy_of(alloc, *part)?)?;
    }
    Ok(copies)
}

/// The parts between line feeds.
fn line_parts<'t>(alloc: Global, text: &'t str) -> Result<Vec<&'t str>, Memory>
    ensures { IfOk result (λ parts. map (λ part. part.now) parts.items ≡ slice_split is_line_feed text.now) }
{
    Ok(text.split('\n').collect(alloc)?)
}

/// The parts between spaces.
fn word_parts<'t>(alloc: Global, text: &'t str) -> Result<Vec<&'t str>, Memory>
    ensures { IfOk result (λ parts. map (λ part. part.now) parts.items ≡ slice_split is_space text.now) }
{
    Ok(text.split(' ').collect(alloc)?)
}

/// The lines of a text.
pub fn lines_of(alloc: Global, text: &str) -> Result<Seq<Str>, Memory>
    ensures { IfOk result (λ lines. lines ≡ lines_of text.now) }
{
    let parts = line_parts(alloc, text)?;
    copies(alloc, parts.as_slice())
}

/// The words of a head.
pub(crate) fn words_of(alloc: Global, head: &str) -> Result<Seq<Str>, Memory>
    ensures { IfOk result (λ words. words ≡ words_of head.now) }
{
    let parts = word_parts(alloc, head)?;
    copies(alloc, parts.as_slice())
}

/// What stands behind `=== `.
pub(crate) fn head_of(line: &str) -> Option<&str>
    ensures { option_map (λ head. head.now) result ≡ head_of line.now }
{
    match split(line) {
        Some((mark, head)) if mark == "===" => Some(head),
        _ => None,
    }
}

/// Whether the line is a head.
pub fn is_head(line: &str) -> bool
    ensures { result ≡ is_head line.now }
{
    head_of(line).is_some()
}

/// The lines up to the next head.
pub(crate) fn under(lines: &[Str]) -> &[Str]
    ensures { result.now ≡ under lines.now }
{
    for i in 0..lines.len() {
        if is_head(lines[i].as_str()) {
            return &lines[..i];
        }
    }
    lines
}
