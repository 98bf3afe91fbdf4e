//! The kind of a line, and its step.

ghost use Rattle.std.specs.Prelude.{◌≡◌, IfOk, string_bytes};
ghost use Rattle.def_see.specs.Lines.{line_of};
ghost use Rattle.def_see.specs.Words.{begins_step, begins_with, begins_with_digit, has, is_act, is_entry, sends, step_label, step_vat, word};

use def_see::Line;
use ev_base::{Memory, Seq, Str};
use std::alloc::Global;

/// The word at a place, from 0, and the empty text behind the last.
pub fn word(words: &[Str], place: usize) -> &str
    ensures { result.now ≡ word place words.now }
{
    match words.get(place) {
        Some(found) => found.as_str(),
        None => "",
    }
}

/// Whether the word at a place is this.
pub fn has(words: &[Str], place: usize, text: &str) -> bool
    ensures { result ≡ has place text.now words.now }
{
    word(words, place) == text
}

fn begins_with(text: &[u8], mark: u8) -> bool
    ensures { result ≡ begins_with mark text.now }
{
    match text {
        [] => false,
        [first, ..] => *first == mark,
    }
}

fn begins_with_digit(text: &[u8]) -> bool
    ensures { result ≡ begins_with_digit text.now }
{
    match text {
        [] => false,
        [first, ..] => *first >= b'0' && *first <= b'9',
    }
}

/// Whether an activation does that.
#[tactic(auto, unfolding(def_see::specs::Words::is_act))]
pub fn is_act(words: &[Str], act: &str) -> bool
    ensures { result ≡ is_act act.now words.now }
{
    begins_with(word(words, 0).as_bytes(), b'!') && has(words, 1, act)
}

/// Whether it is an entry of that kind.
#[tactic(auto, unfolding(def_see::specs::Words::is_entry))]
pub fn is_entry(words: &[Str], kind: &str) -> bool
    ensures { result ≡ is_entry kind.now words.now }
{
    begins_with_digit(word(words, 0).as_bytes()) && has(words, 1, kind)
}

/// Whether a message is sent.
#[tactic(auto, unfolding(def_see::specs::Words::sends))]
pub fn sends(words: &[Str]) -> bool
    ensures { result ≡ sends words.now }
{
    is_act(words, "send") || is_act(words, "sendonly") || is_act(words, "when")
}

/// Whether a step begins.
#[tactic(auto, unfolding(def_see::specs::Words::begins_step))]
pub fn begins_step(words: &[Str]) -> bool
    ensures { result ≡ begins_step words.now }
{
    has(words, 0, "open") || begins_with_digit(word(words, 0).as_bytes())
}

/// How a step is called, by the words of its first line.
#[tactic(auto, unfolding(def_see::specs::Words::step_label))]
pub fn step_label(alloc: Global, words: &[Str]) -> Result<Str, Memory>
    ensures { IfOk result (λ label. label ≡ step_label words.now) }
{
    if has(words, 0, "open") {
        let mut label = String::from_str(alloc, "open ")?;
        label.push_str(word(words, 1))?;
        return Ok(Str::of(label));
    }
    Str::copy_of(alloc, word(words, 0))
}

/// The vat of a step, by the words of its first line.
#[tactic(auto, unfolding(def_see::specs::Words::step_vat))]
pub fn step_vat(words: &[Str]) -> &str
    ensures { result.now ≡ step_vat words.now }
{
    if has(words, 0, "open") {
        word(words, 1)
    } else if has(words, 1, "carry") {
        word(words, 3)
    } else if has(words, 1, "turn") || has(words, 1, "notice") {
        word(words, 2)
    } else {
        ""
    }
}

/// A line in words with its step, by the step before it.
#[tactic(auto, unfolding(def_see::specs::Lines::line_of))]
pub fn line_of(alloc: Global, label: &str, at: &str, words: Seq<Str>) -> Result<Line, Memory>
    ensures { IfOk result (λ line. line ≡ line_of label.now at.now words) }
{
    if begins_step(words.as_slice()) {
        let label = step_label(alloc, words.as_slice())?;
        let at = Str::copy_of(alloc, step_vat(words.as_slice()))?;
        return Ok(Line { label, at, words });
    }
    let label = Str::copy_of(alloc, label)?;
    let at = Str::copy_of(alloc, at)?;
    Ok(Line { label, at, words })
}
