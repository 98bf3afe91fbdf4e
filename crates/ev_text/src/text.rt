//! The lines of a text, and the words of a line.

ghost use Rattle.std.specs.Prelude.{◌≡◌, IfOk, map, option_map};
ghost use Rattle.std.specs.List.{slice_split};
ghost use Rattle.ev_text.specs.Lines.{is_line_feed, lines, split, text_of};

use ev_base::Memory;
use std::alloc::Global;
use std::str;

/// The text that bytes are, where they are UTF-8.
#[tactic(auto, using(crate::proofs::LineTexts::not_utf8, crate::proofs::LineTexts::is_text))]
pub fn text_of(bytes: &[u8]) -> Option<&str>
    ensures { option_map (λ text. text.now) result ≡ text_of bytes.now }
{
    match str::from_utf8(bytes) {
        Ok(text) => Some(text),
        Err(_) => None,
    }
}

/// The parts between line feeds.
fn parts<'t>(alloc: Global, text: &'t str) -> Result<Vec<&'t str>, Memory>
    ensures { IfOk result (λ parts. map (λ part. part.now) parts.items ≡ slice_split is_line_feed text.now) }
{
    Ok(text.split('\n').collect(alloc)?)
}

/// The lines of a text, each of which ends with a line feed, and none where something stands behind the last line feed.
pub fn lines<'t>(alloc: Global, text: &'t str) -> Result<Option<Vec<&'t str>>, Memory>
    ensures { IfOk result (λ found. option_map (λ lines. map (λ line. line.now) lines.items) found ≡ lines text.now) }
{
    let mut parts = parts(alloc, text)?;
    let Some(last) = parts.pop() else {
        return Ok(Some(parts));
    };
    if last.is_empty() {
        Ok(Some(parts))
    } else {
        Ok(None)
    }
}

/// The text before the first space, and the text behind it.
pub fn split(text: &str) -> Option<(&str, &str)>
    ensures { option_map (λ words. (words.0.now, words.1.now)) result ≡ split text.now }
{
    text.split_once(' ')
}
