//! The phrases that tell what a line says of a message.

ghost use Rattle.std.specs.Prelude.{◌≡◌, ◌++◌, IfOk, OnOk, string_bytes, flat_map, codes};
ghost use Rattle.def_see.specs.Words.{arguments, joined, what, word};
ghost use Rattle.def_see.specs.Rows.{carry_phrase, fate_phrase, left_phrase, lost_phrase, taken_phrase};

use crate::kinds::{has, is_act, is_entry, word};
use def_see::Line;
use ev_base::{Memory, Seq, Str};
use std::alloc::Global;

/// Appends words, each behind the separator.
fn push_behind(out: &mut String, separator: &str, words: &[Str]) -> Result<(), Memory>
    ensures { OnOk result (string_bytes out.new ≡ string_bytes out.old ++ flat_map (λ v. separator.now ++ v) words.now) }
{
    for word in words {
        out.push_str(separator)?;
        out.push_str(word.as_str())?;
    }
    Ok(())
}

/// Appends words, with the separator between two.
pub fn push_joined(out: &mut String, separator: &str, words: &[Str]) -> Result<(), Memory>
    ensures { OnOk result (string_bytes out.new ≡ string_bytes out.old ++ joined separator.now words.now) }
{
    match words {
        [] => Ok(()),
        [first, rest @ ..] => {
            out.push_str(first.as_str())?;
            push_behind(out, separator, rest)
        }
    }
}

/// The arguments of a send.
#[tactic(auto, unfolding(def_see::specs::Words::arguments))]
fn arguments(words: &[Str]) -> &[Str]
    ensures { result.now ≡ arguments words.now }
{
    let rest = &words[words.len().min(5)..];
    if is_act(words, "sendonly") {
        return rest;
    }
    &rest[..words.len().saturating_sub(7).min(rest.len())]
}

/// What a reaction waits for, and the message that it is.
fn reaction(alloc: Global, words: &[Str]) -> Result<Str, Memory>
    ensures { IfOk result (λ text. text ≡ codes "when " ++ word 3 words.now ++ codes ": " ++ word 4 words.now ++ codes " <- run(" ++ word 3 words.now ++ codes ")") }
{
    let awaited = word(words, 3);
    let reactor = word(words, 4);
    Ok(Str::of(format!(in alloc; "when {awaited}: {reactor} <- run({awaited})")?))
}

/// What a message is sent on, its verb and its arguments.
fn request(alloc: Global, words: &[Str]) -> Result<Str, Memory>
    ensures { IfOk result (λ text. text ≡ word 3 words.now ++ codes " <- " ++ word 4 words.now ++ codes "(" ++ joined (codes ", ") (arguments words.now) ++ codes ")") }
{
    let mut text = String::new(alloc);
    text.push_str(word(words, 3))?;
    text.push_str(" <- ")?;
    text.push_str(word(words, 4))?;
    text.push_str("(")?;
    push_joined(&mut text, ", ", arguments(words))?;
    text.push_str(")")?;
    Ok(Str::of(text))
}

/// What a line that sends a message says of it: what it is sent on, its verb and its arguments.
#[tactic(auto, unfolding(def_see::specs::Words::what))]
pub fn what(alloc: Global, words: &[Str]) -> Result<Str, Memory>
    ensures { IfOk result (λ text. text ≡ what words.now) }
{
    if is_act(words, "when") {
        reaction(alloc, words)
    } else {
        request(alloc, words)
    }
}

/// Adds the phrase of a carry line, `K:V>W`, and none of another line.
#[tactic(auto, unfolding(def_see::specs::Rows::carry_phrase))]
pub fn carry_phrase(alloc: Global, out: &mut Seq<Str>, line: &Line) -> Result<(), Memory>
    ensures { OnOk result (out.new ≡ out.old ++ carry_phrase line.now) }
{
    let words = line.words.as_slice();
    if !is_entry(words, "carry") {
        return Ok(());
    }
    let entry = word(words, 0);
    let from = word(words, 2);
    let to = word(words, 3);
    out.push(Str::of(format!(in alloc; "{entry}:{from}>{to}")?))
}

#[tactic(auto, unfolding(def_see::specs::Rows::taken_phrase))]
fn taken_phrase(alloc: Global, line: &Line) -> Result<Str, Memory>
    ensures { IfOk result (λ text. text ≡ taken_phrase line.now) }
{
    let step = line.label.as_str();
    let taker = word(line.words.as_slice(), 3);
    Ok(Str::of(format!(in alloc; "taken {step} by {taker}")?))
}

#[tactic(auto, unfolding(def_see::specs::Rows::lost_phrase))]
fn lost_phrase(alloc: Global, line: &Line) -> Result<Str, Memory>
    ensures { IfOk result (λ text. text ≡ lost_phrase line.now) }
{
    let step = line.label.as_str();
    let why = word(line.words.as_slice(), 2);
    Ok(Str::of(format!(in alloc; "lost {step} {why}")?))
}

#[tactic(auto, unfolding(def_see::specs::Rows::left_phrase))]
fn left_phrase(alloc: Global, line: &Line) -> Result<Str, Memory>
    ensures { IfOk result (λ text. text ≡ left_phrase line.now) }
{
    let words = line.words.as_slice();
    let most: usize = if has(words, 1, "queue") { 3 } else { 4 };
    let mut text = String::new(alloc);
    push_joined(&mut text, " ", &words[..words.len().min(most)])?;
    Ok(Str::of(text))
}

/// Adds the phrase of a line that takes, loses or leaves a message, and none of another line.
#[tactic(auto, unfolding(def_see::specs::Rows::fate_phrase))]
pub fn fate_phrase(alloc: Global, out: &mut Seq<Str>, line: &Line) -> Result<(), Memory>
    ensures { OnOk result (out.new ≡ out.old ++ fate_phrase line.now) }
{
    let words = line.words.as_slice();
    if is_act(words, "take") {
        return out.push(taken_phrase(alloc, line)?);
    }
    if has(words, 0, "lost") {
        return out.push(lost_phrase(alloc, line)?);
    }
    if has(words, 0, "left") {
        return out.push(left_phrase(alloc, line)?);
    }
    Ok(())
}
