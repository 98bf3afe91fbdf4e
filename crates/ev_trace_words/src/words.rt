//! The words of a line.

ghost use Rattle.std.specs.Prelude.{◌≡◌, ◌<◌, ◌^◌, ◌+◌, IfOk};
ghost use Rattle.ev_trace_words.specs.Words.{behind_depth, behind_quote, ends_word, is_outside, words_of};

use ev_base::{Memory, Seq, Str};
use std::alloc::Global;

/// Where the next byte of a line stands.
#[derive(Clone, Copy, PartialEq, Eq)]
pub enum Quote {
    Outside,
    /// Between `"`.
    InText,
    /// Between `'`.
    InCharacter,
    /// Between `"`, behind a backslash.
    EscapedText,
    /// Between `'`, behind a backslash.
    EscapedCharacter,
}

/// Where the byte behind this character stands.
pub fn behind_quote(quote: Quote, c: char) -> Quote
    ensures { result ≡ behind_quote quote c }
{
    match (quote, c) {
        (Quote::Outside, '"') => Quote::InText,
        (Quote::Outside, '\'') => Quote::InCharacter,
        (Quote::InText, '\\') => Quote::EscapedText,
        (Quote::InText, '"') => Quote::Outside,
        (Quote::InCharacter, '\\') => Quote::EscapedCharacter,
        (Quote::InCharacter, '\'') => Quote::Outside,
        (Quote::EscapedText, _) => Quote::InText,
        (Quote::EscapedCharacter, _) => Quote::InCharacter,
        _ => quote,
    }
}

/// Whether a byte stands outside quotes.
pub fn is_outside(quote: Quote) -> bool
    ensures { result ≡ is_outside quote }
{
    match quote {
        Quote::Outside => true,
        _ => false,
    }
}

fn behind_depth(quote: Quote, depth: usize, c: char) -> usize
    requires { depth + 1 < 2 ^ 64 }
    ensures { result ≡ behind_depth quote depth c }
{
    if !is_outside(quote) {
        return depth;
    }
    match c {
        '[' => depth + 1,
        ']' => depth.saturating_sub(1),
        _ => depth,
    }
}

fn ends_word(quote: Quote, depth: usize, c: char) -> bool
    ensures { result ≡ ends_word quote depth c }
{
    c == ' ' && is_outside(quote) && depth == 0
}

/// The words of a line, with one space between two. A space between quotes or brackets belongs to its word.
pub fn words_of(alloc: Global, line: &str) -> Result<Seq<Str>, Memory>
    ensures { IfOk result (λ words. words ≡ words_of line.now) }
{
    let mut words = Seq::new(alloc);
    let mut word = String::new(alloc);
    let mut quote = Quote::Outside;
    let mut depth: usize = 0;
    for c in line.chars() {
        if ends_word(quote, depth, c) {
            words.push(Str::of(word))?;
            word = String::new(alloc);
        } else {
            word.push(c)?;
            depth = behind_depth(quote, depth, c);
            quote = behind_quote(quote, c);
        }
    }
    words.push(Str::of(word))?;
    Ok(words)
}
