//! What the words of values stand for.

ghost use Rattle.std.specs.Prelude.{◌≡◌, ◌≤◌, IfOk, length, option_map};
ghost use Rattle.std.specs.Path.{rsplit_once};
ghost use Rattle.ev_script.specs.Script.{Reads};
ghost use Rattle.ev_trace_words.specs.Values.{all_of, before_last, bracketed, character_value, member_words, note_list, note_value, note_values, placed, quoted_value, simple, text_value, unclosed, value, values};

use crate::parts::{behind_label, behind_mark, numbered, plain};
use crate::texts::{character, shown_text};
use crate::words::words_of;
use def_event::shown::Shown;
use ev_base::{Memory, Seq, Str};
use ev_script::ScriptFault;
use std::alloc::Global;

/// The greatest height of a list in a note.
const MOST_HEIGHT: u32 = 100;

fn character_value(alloc: Global, word: &str) -> Result<Shown, ScriptFault>
    ensures { Reads result (character_value word.now) }
{
    Ok(Shown::Char(character(alloc, word)?))
}

/// A text, or a broken reference by its problem.
fn text_value(alloc: Global, word: &str, problem: Option<&str>) -> Result<Shown, ScriptFault>
    ensures { Reads result (text_value word.now (option_map (λ p. p.now) problem.entry)) }
{
    match problem {
        None => Ok(Shown::Text(shown_text(alloc, word)?)),
        Some(problem) => Ok(Shown::Broken(shown_text(alloc, problem)?)),
    }
}

/// A value that is spelled by a text or a character.
fn quoted_value(alloc: Global, word: &str, behind: Option<&str>) -> Result<Shown, ScriptFault>
    ensures { Reads result (quoted_value word.now (option_map (λ b. b.now) behind.entry)) }
{
    match behind {
        None => text_value(alloc, word, behind_label(word, "broken")),
        Some(_) => character_value(alloc, word),
    }
}

/// A value that is no list and no slot.
fn simple(alloc: Global, names: &[Str], word: &str) -> Result<Shown, ScriptFault>
    requires { length names.now ≤ 16 }
    ensures { Reads result (simple names.now word.now) }
{
    match plain(names, word) {
        Some(found) => Ok(found),
        None => quoted_value(alloc, word, behind_mark(word, '\'')),
    }
}

/// A list or a slot by its number.
fn placed(names: &[Str], word: &str) -> Option<Shown>
    requires { length names.now ≤ 16 }
    ensures { result ≡ placed names.now word.now }
{
    if let Some((host, number)) = numbered(names, word, '%') {
        return Some(Shown::List(host, number));
    }
    match numbered(names, word, '&') {
        Some((host, number)) => Some(Shown::Slot(host, number)),
        None => None,
    }
}

/// A value outside notes.
pub fn value(alloc: Global, names: &[Str], word: &str) -> Result<Shown, ScriptFault>
    requires { length names.now ≤ 16 }
    ensures { Reads result (value names.now word.now) }
{
    match placed(names, word) {
        Some(found) => Ok(found),
        None => simple(alloc, names, word),
    }
}

/// Values outside notes.
pub fn values(alloc: Global, names: &[Str], words: &[Str]) -> Result<Seq<Shown>, ScriptFault>
    requires { length names.now ≤ 16 }
    ensures { Reads result (values names.now words.now) }
{
    let mut found = Seq::new(alloc);
    for word in words {
        match value(alloc, names, word.as_str()) {
            Ok(x) => found.push(x)?,
            Err(fault) => return Err(fault),
        }
    }
    Ok(found)
}

/// What stands before and behind the last closing bracket.
fn split_last(word: &str) -> Option<(&str, &str)>
    ensures { option_map (λ parts. (parts.0.now, parts.1.now)) result ≡ rsplit_once 93 word.now }
{
    word.rsplit_once(']')
}

/// What stands before a closing bracket at the end.
fn before_last<'w>(parts: Option<(&'w str, &'w str)>) -> Option<&'w str>
    ensures { option_map (λ text. text.now) result ≡ before_last (option_map (λ parts. (parts.0.now, parts.1.now)) parts.entry) }
{
    let (front, behind) = parts?;
    if behind.len() == 0 { Some(front) } else { None }
}

/// What stands between brackets round the whole word.
fn bracketed(word: &str) -> Option<&str>
    ensures { option_map (λ text. text.now) result ≡ bracketed word.now }
{
    let behind = behind_mark(word, '[')?;
    before_last(split_last(behind))
}

/// The words of the members of a list.
fn member_words(alloc: Global, text: &str) -> Result<Seq<Str>, Memory>
    ensures { IfOk result (λ words. words ≡ member_words text.now) }
{
    if text.len() == 0 {
        return Ok(Seq::new(alloc));
    }
    words_of(alloc, text)
}

/// A list in a note, by the text of its members, whose lists have at most this height, or a value that is no list.
#[cycle(members)]
fn note_list(
    alloc: Global,
    names: &[Str],
    height: u32,
    word: &str,
    members: Option<&str>,
) -> Result<Shown, ScriptFault>
    requires { length names.now ≤ 16 }
    ensures { Reads result (note_list names.now (note_value names.now height) word.now (option_map (λ m. m.now) members.entry)) }
{
    let Some(text) = members else {
        return simple(alloc, names, word);
    };
    let words = member_words(alloc, text)?;
    let found = note_values_within(alloc, names, height, words.as_slice())?;
    Ok(Shown::Members(found))
}

/// A value in a note, where lists have at most this height.
#[cycle(members)]
pub fn note_value(
    alloc: Global,
    names: &[Str],
    height: u32,
    word: &str,
) -> Result<Shown, ScriptFault>
    requires { length names.now ≤ 16 }
    ensures { Reads result (note_value names.now height word.now) }
{
    if height == 0 {
        return simple(alloc, names, word);
    }
    note_list(alloc, names, height - 1, word, bracketed(word))
}

/// Values in a note, where lists have at most this height.
#[cycle(members)]
fn note_values_within(
    alloc: Global,
    names: &[Str],
    height: u32,
    words: &[Str],
) -> Result<Seq<Shown>, ScriptFault>
    requires { length names.now ≤ 16 }
    ensures { Reads result (all_of (note_value names.now height) words.now) }
{
    let mut found = Seq::new(alloc);
    for word in words {
        match note_value(alloc, names, height, word.as_str()) {
            Ok(x) => found.push(x)?,
            Err(fault) => return Err(fault),
        }
    }
    Ok(found)
}

/// Values in a note.
pub fn note_values(alloc: Global, names: &[Str], words: &[Str]) -> Result<Seq<Shown>, ScriptFault>
    requires { length names.now ≤ 16 }
    ensures { Reads result (note_values names.now words.now) }
{
    note_values_within(alloc, names, MOST_HEIGHT, words)
}
