//! What a word stands for in which a text is spelled.

ghost use Rattle.std.specs.Prelude.{◌≡◌, ◌-◌, ◌==◌, IfOk, length, chars, option_map, slice_get, slice_index, string_bytes};
ghost use Rattle.std.specs.Path.{rsplit_once};
ghost use Rattle.std.specs.Str.{bytes_eq};
ghost use Rattle.def_text.specs.Quoting.{quoted, quoted_character};
ghost use Rattle.ev_script.specs.Script.{Reads, rule};
ghost use Rattle.ev_trace_words.specs.Texts.{character, character_behind, cut, cut_by, exactly, object_name, quoted_verb, shown_text, text, verb, whole};

use crate::parts::{behind_mark, count};
use ev_base::{Memory, Str};
use ev_script::ScriptFault;
use ev_text::{EscapeFault, escape, is_identifier, push_quoted_character, quote, unquote};
use std::alloc::Global;

/// How many characters of a text a line prints.
const SHOWN_LENGTH: usize = 32;

/// Whether the word is how the text is printed between `"`.
fn is_spelling(alloc: Global, word: &str, text: &str) -> Result<bool, Memory>
    ensures { IfOk result (λ same. same ≡ bytes_eq (quoted text.now) word.now) }
{
    let spelling = quote(alloc, text)?;
    Ok(spelling.as_str() == word)
}

/// The text, where the word is how it is printed.
fn exactly(alloc: Global, word: &str, text: String) -> Result<Str, ScriptFault>
    ensures { Reads result (exactly word.now (string_bytes text)) }
{
    if is_spelling(alloc, word, text.as_str())? {
        Ok(Str::of(text))
    } else {
        Err(ScriptFault::Rule(42))
    }
}

/// A text between `"`, spelled as it is printed.
fn text(alloc: Global, word: &str) -> Result<Str, ScriptFault>
    ensures { Reads result (text word.now) }
{
    match unquote(alloc, word) {
        Ok(found) => exactly(alloc, word, found),
        Err(EscapeFault::At(_)) => Err(ScriptFault::Rule(42)),
        Err(EscapeFault::Memory) => Err(ScriptFault::Memory),
    }
}

/// How many characters a text has.
#[tactic(auto, using(std::proofs::lemmas::Str::chars_from_encodes))]
fn count_characters(text: &str) -> usize
    ensures { result ≡ length (chars text.now) }
{
    text.chars().count()
}

/// A text that a line prints whole.
fn whole(alloc: Global, word: &str) -> Result<Str, ScriptFault>
    ensures { Reads result (whole word.now) }
{
    let found = text(alloc, word)?;
    if count_characters(found.as_str()) > SHOWN_LENGTH {
        Err(ScriptFault::Rule(42))
    } else {
        Ok(found)
    }
}

/// What stands before and behind the last such character.
fn split_last(word: &str) -> Option<(&str, &str)>
    ensures { option_map (λ parts. (parts.0.now, parts.1.now)) result ≡ rsplit_once 43 word.now }
{
    word.rsplit_once('+')
}

/// A text of which a line prints the first characters, as that spelling.
fn cut_by(alloc: Global, word: &str, front: &str, behind: &str) -> Result<Str, ScriptFault>
    ensures { Reads result (cut_by word.now (Some (front.now, behind.now))) }
{
    let front = text(alloc, front)?;
    let Some(more) = count(behind) else {
        return Err(ScriptFault::Rule(42));
    };
    if count_characters(front.as_str()) == SHOWN_LENGTH && more > 0 {
        Ok(Str::copy_of(alloc, word)?)
    } else {
        Err(ScriptFault::Rule(42))
    }
}

fn cut(alloc: Global, word: &str) -> Result<Str, ScriptFault>
    ensures { Reads result (cut word.now) }
{
    match split_last(word) {
        None => Err(ScriptFault::Rule(42)),
        Some((front, behind)) => cut_by(alloc, word, front, behind),
    }
}

/// A text as a line prints it; one that is cut short is read as its spelling.
pub(crate) fn shown_text(alloc: Global, word: &str) -> Result<Str, ScriptFault>
    ensures { Reads result (shown_text word.now) }
{
    if word.ends_with('"') {
        whole(alloc, word)
    } else {
        cut(alloc, word)
    }
}

/// The first character of a text.
fn first_character(text: &str) -> Option<char>
    ensures { result ≡ slice_get (chars text.now) 0 }
{
    text.chars().next()
}

/// The character behind an opening `'`.
fn character_behind(behind: &str) -> Option<char>
    ensures { result ≡ character_behind behind.now }
{
    match behind.as_bytes() {
        [] => None,
        [b'\\', more @ ..] => match escape(more) {
            None => None,
            Some((c, _)) => Some(c),
        },
        _ => first_character(behind),
    }
}

/// Whether the word is how the character is printed between `'`.
fn is_character_spelling(alloc: Global, word: &str, c: char) -> Result<bool, Memory>
    ensures { IfOk result (λ same. same ≡ bytes_eq (quoted_character c) word.now) }
{
    let mut spelling = String::new(alloc);
    push_quoted_character(&mut spelling, c)?;
    Ok(spelling.as_str() == word)
}

/// A character between `'`, spelled as it is printed.
pub(crate) fn character(alloc: Global, word: &str) -> Result<char, ScriptFault>
    ensures { Reads result (character word.now) }
{
    let Some(behind) = behind_mark(word, '\'') else {
        return Err(ScriptFault::Rule(42));
    };
    let Some(c) = character_behind(behind) else {
        return Err(ScriptFault::Rule(42));
    };
    if is_character_spelling(alloc, word, c)? {
        Ok(c)
    } else {
        Err(ScriptFault::Rule(42))
    }
}

fn quoted_verb(alloc: Global, word: &str) -> Result<Str, ScriptFault>
    ensures { Reads result (quoted_verb word.now) }
{
    let found = text(alloc, word)?;
    if is_identifier(found.as_str()) {
        Err(ScriptFault::Rule(42))
    } else {
        Ok(found)
    }
}

/// A verb: bare where it is an identifier, else between `"`.
pub fn verb(alloc: Global, word: &str) -> Result<Str, ScriptFault>
    ensures { Reads result (verb word.now) }
{
    if is_identifier(word) {
        Ok(Str::copy_of(alloc, word)?)
    } else {
        quoted_verb(alloc, word)
    }
}

/// The name of an object that is made: an identifier, or `_`.
pub fn object_name(alloc: Global, word: &str) -> Result<Str, ScriptFault>
    ensures { Reads result (object_name word.now) }
{
    if is_identifier(word) || word == "_" {
        Ok(Str::copy_of(alloc, word)?)
    } else {
        Err(ScriptFault::Rule(42))
    }
}
