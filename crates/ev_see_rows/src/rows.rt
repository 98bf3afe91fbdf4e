//! The rows of messages and of roots.

ghost use Rattle.std.specs.Prelude.{◌≡◌, ◌++◌, ◌∷◌, [], codes, string_bytes, IfOk, OnOk};
ghost use Rattle.def_see.specs.Lines.{life, line_at};
ghost use Rattle.def_see.specs.Words.{has, joined, word};
ghost use Rattle.def_see.specs.Rows.{answer, carry_phrase, fate_phrase, or_dash, outcome, phrases, roots, row, rows};
ghost use Rattle.ev_see_rows.specs.Lives.{IsLives};

use crate::outcomes::outcome;
use def_see::{Line, Row};
use ev_base::{Memory, Seq, Str};
use ev_see_lives::Lives;
use ev_see_words::kinds::{has, word};
use ev_see_words::phrases::{carry_phrase, fate_phrase, push_joined};
use ev_see_words::{is_act, sends, what};
use std::alloc::Global;

/// A text, or a dash where there is none.
fn or_dash(alloc: Global, text: &str) -> Result<Str, Memory>
    ensures { IfOk result (λ cell. cell ≡ or_dash text.now) }
{
    match text.as_bytes() {
        [] => Str::copy_of(alloc, "-"),
        [_, ..] => Str::copy_of(alloc, text),
    }
}

/// Phrases with a separator between two, or a dash where there are none.
fn joined_or_dash(alloc: Global, separator: &str, phrases: &[Str]) -> Result<Str, Memory>
    ensures { IfOk result (λ cell. cell ≡ or_dash (joined separator.now phrases.now)) }
{
    let mut text = String::new(alloc);
    push_joined(&mut text, separator, phrases)?;
    or_dash(alloc, text.as_str())
}

/// Adds the phrase of the line of a number, where it is a carry line.
#[tactic(auto, unfolding(def_see::specs::Rows::carry_phrase, def_see::specs::Words::is_entry))]
fn add_carry(
    alloc: Global,
    found: &mut Seq<Str>,
    lines: &[Line],
    number: usize,
) -> Result<(), Memory>
    ensures { OnOk result (found.new ≡ found.old ++ carry_phrase (line_at lines.now number)) }
{
    match lines.get(number) {
        Some(line) => carry_phrase(alloc, found, line),
        None => Ok(()),
    }
}

/// Adds the phrase of the line of a number, where it takes, loses or leaves a message.
#[tactic(auto, unfolding(def_see::specs::Rows::fate_phrase, def_see::specs::Words::is_act))]
fn add_fate(
    alloc: Global,
    found: &mut Seq<Str>,
    lines: &[Line],
    number: usize,
) -> Result<(), Memory>
    ensures { OnOk result (found.new ≡ found.old ++ fate_phrase (line_at lines.now number)) }
{
    match lines.get(number) {
        Some(line) => fate_phrase(alloc, found, line),
        None => Ok(()),
    }
}

/// Where a message is carried, by the numbers of the lines about it.
fn carried(alloc: Global, lines: &[Line], numbers: &[usize]) -> Result<Str, Memory>
    ensures { IfOk result (λ cell. cell ≡ or_dash (joined (codes " ") (phrases carry_phrase lines.now numbers.now))) }
{
    let mut found = Seq::new(alloc);
    for number in numbers {
        add_carry(alloc, &mut found, lines, *number)?;
    }
    joined_or_dash(alloc, " ", found.as_slice())
}

/// What became of a message, by the numbers of the lines about it.
fn fate(alloc: Global, lines: &[Line], numbers: &[usize]) -> Result<Str, Memory>
    ensures { IfOk result (λ cell. cell ≡ or_dash (joined (codes ", ") (phrases fate_phrase lines.now numbers.now))) }
{
    let mut found = Seq::new(alloc);
    for number in numbers {
        add_fate(alloc, &mut found, lines, *number)?;
    }
    joined_or_dash(alloc, ", ", found.as_slice())
}

/// What the answer of a message came to, by the words of the line that sends it.
#[tactic(auto, unfolding(def_see::specs::Rows::answer))]
fn answer(alloc: Global, lines: &[Line], lives: &Lives, words: &[Str]) -> Result<Str, Memory>
    requires { IsLives lines.now lives.now }
    ensures { IfOk result (λ cell. cell ≡ answer lines.now words.now) }
{
    if is_act(words, "sendonly") {
        return Str::copy_of(alloc, "-");
    }
    outcome(
        alloc,
        lines,
        lives,
        word(words, words.len().saturating_sub(1)),
    )
}

/// The row of a line that sends a message.
#[tactic(auto, unfolding(def_see::specs::Rows::row))]
fn row(alloc: Global, lines: &[Line], lives: &Lives, line: &Line) -> Result<Row, Memory>
    requires { IsLives lines.now lives.now }
    ensures { IfOk result (λ found. found ≡ row lines.now line.now) }
{
    let words = line.words.as_slice();
    let numbers = lives.life(word(words, 2));
    Ok(Row {
        message: Str::copy_of(alloc, word(words, 2))?,
        what: what(alloc, words)?,
        sent: or_dash(alloc, line.label.as_str())?,
        carried: carried(alloc, lines, numbers)?,
        fate: fate(alloc, lines, numbers)?,
        answer: answer(alloc, lines, lives, words)?,
    })
}

/// A row for each line that sends a message, in order.
pub fn rows(alloc: Global, lines: &[Line], lives: &Lives) -> Result<Seq<Row>, Memory>
    requires { IsLives lines.now lives.now }
    ensures { IfOk result (λ found. found ≡ rows lines.now) }
{
    let mut found = Seq::new(alloc);
    for line in lines {
        if sends(line.words.as_slice()) {
            found.push(row(alloc, lines, lives, line)?)?;
        }
    }
    Ok(found)
}

/// The name of a root.
fn root(alloc: Global, vat: &str) -> Result<String, Memory>
    ensures { IfOk result (λ name. string_bytes name ≡ 64 ∷ vat.now) }
{
    let mut name = String::new(alloc);
    name.push('@')?;
    name.push_str(vat)?;
    Ok(name)
}

/// What the root of the vat that a line opens came to.
fn root_row(alloc: Global, lines: &[Line], lives: &Lives, words: &[Str]) -> Result<Str, Memory>
    requires { IsLives lines.now lives.now }
    ensures { IfOk result (λ text. text ≡ outcome lines.now (64 ∷ word 1 words.now)) }
{
    let name = root(alloc, word(words, 1))?;
    outcome(alloc, lines, lives, name.as_str())
}

/// What each root came to, in the order in which vats open.
pub fn roots(alloc: Global, lines: &[Line], lives: &Lives) -> Result<Seq<Str>, Memory>
    requires { IsLives lines.now lives.now }
    ensures { IfOk result (λ found. found ≡ roots lines.now) }
{
    let mut found = Seq::new(alloc);
    for line in lines {
        if has(line.words.as_slice(), 0, "open") {
            found.push(root_row(alloc, lines, lives, line.words.as_slice())?)?;
        }
    }
    Ok(found)
}
