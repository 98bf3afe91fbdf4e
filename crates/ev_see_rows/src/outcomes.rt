//! What names came to.

ghost use Rattle.std.specs.Prelude.{◌≡◌, ◌++◌, ◌∷◌, codes, option_map, Some, None, if◌then◌else◌, IfOk};
ghost use Rattle.def_see.specs.Words.{has, word};
ghost use Rattle.def_see.specs.Lines.{line_at};
ghost use Rattle.def_see.specs.Rows.{awaited, awaited_by, end_from, first_of, most_followed, outcome, settles, settles_at_host, telling, told, unsettled, waits_at_host};
ghost use Rattle.ev_see_rows.specs.Lives.{IsLives};

use def_see::Line;
use ev_base::{Memory, Str};
use ev_see_lives::Lives;
use ev_see_words::is_host;
use ev_see_words::kinds::{has, word};
use std::alloc::Global;

/// Whether the line of a number settles a name at its host.
#[tactic(auto, unfolding(def_see::specs::Rows::settles_at_host))]
fn settles_at_host(lines: &[Line], name: &str, number: usize) -> bool
    ensures { result ≡ settles_at_host name.now (line_at lines.now number) }
{
    match lines.get(number) {
        Some(line) => { has(line.words.as_slice(), 0, "settle") && is_host(name, line.at.as_str()) }
        None => false,
    }
}

/// Whether the line of a number settles a name.
#[tactic(auto, unfolding(def_see::specs::Rows::settles))]
fn settles(lines: &[Line], number: usize) -> bool
    ensures { result ≡ settles (line_at lines.now number) }
{
    match lines.get(number) {
        Some(line) => has(line.words.as_slice(), 0, "settle"),
        None => false,
    }
}

/// Whether a name waits by the line of a number at its host.
#[tactic(auto, unfolding(def_see::specs::Rows::waits_at_host))]
fn waits_at_host(lines: &[Line], name: &str, number: usize) -> bool
    ensures { result ≡ waits_at_host name.now (line_at lines.now number) }
{
    match lines.get(number) {
        Some(line) => { has(line.words.as_slice(), 0, "wait") && is_host(name, line.at.as_str()) }
        None => false,
    }
}

/// The first of these numbers whose line settles a name at its host.
fn first_at_host(lines: &[Line], name: &str, numbers: &[usize]) -> Option<usize>
    ensures { result ≡ first_of (λ i. settles_at_host name.now (line_at lines.now i)) numbers.now }
{
    for number in numbers {
        if settles_at_host(lines, name, *number) {
            return Some(*number);
        }
    }
    None
}

/// The first of these numbers whose line settles a name.
fn first_settling(lines: &[Line], numbers: &[usize]) -> Option<usize>
    ensures { result ≡ first_of (λ i. settles (line_at lines.now i)) numbers.now }
{
    for number in numbers {
        if settles(lines, *number) {
            return Some(*number);
        }
    }
    None
}

/// The first of these numbers by whose line a name waits at its host.
fn first_waiting(lines: &[Line], name: &str, numbers: &[usize]) -> Option<usize>
    ensures { result ≡ first_of (λ i. waits_at_host name.now (line_at lines.now i)) numbers.now }
{
    for number in numbers {
        if waits_at_host(lines, name, *number) {
            return Some(*number);
        }
    }
    None
}

/// Of these numbers of lines about a name, that of the line which tells what it came to.
#[tactic(auto, unfolding(def_see::specs::Rows::telling))]
fn telling(lines: &[Line], name: &str, numbers: &[usize]) -> Option<usize>
    ensures { result ≡ telling lines.now name.now numbers.now }
{
    if let Some(number) = first_at_host(lines, name, numbers) {
        return Some(number);
    }
    if let Some(number) = first_settling(lines, numbers) {
        return Some(number);
    }
    first_waiting(lines, name, numbers)
}

/// The name for which a name waits by the line of a number, where that is a line by which it waits.
#[tactic(auto, unfolding(def_see::specs::Rows::awaited_by))]
fn awaited_by(lines: &[Line], number: Option<usize>) -> Option<&str>
    ensures { option_map (λ name. name.now) result ≡ awaited_by lines.now number }
{
    match number {
        None => None,
        Some(number) => awaited_at(words_at(lines, number)),
    }
}

/// The words of the line of a number, and none where there is no such line.
fn words_at(lines: &[Line], number: usize) -> &[Str]
    ensures { result.now ≡ (line_at lines.now number).words }
{
    match lines.get(number) {
        Some(line) => line.words.as_slice(),
        None => &[],
    }
}

/// The name for which another waits by a line of these words.
fn awaited_at(words: &[Str]) -> Option<&str>
    ensures { option_map (λ name. name.now) result ≡ (if has 0 (codes "wait") words.now then Some (word 2 words.now) else None) }
{
    if has(words, 0, "wait") {
        Some(word(words, 2))
    } else {
        None
    }
}

/// The name for which a name waits.
#[tactic(auto, unfolding(def_see::specs::Rows::awaited))]
fn awaited<'l>(lines: &'l [Line], lives: &Lives, name: &str) -> Option<&'l str>
    requires { IsLives lines.now lives.now }
    ensures { option_map (λ next. next.now) result ≡ awaited lines.now name.now }
{
    let number = telling(lines, name, lives.life(name));
    awaited_by(lines, number)
}

/// The most names over which a row is followed.
const MOST_FOLLOWED: usize = 64;

/// A name, or the end of what it waits for.
fn end_of(alloc: Global, lines: &[Line], lives: &Lives, name: &str) -> Result<Str, Memory>
    requires { IsLives lines.now lives.now }
    ensures { IfOk result (λ end. end ≡ end_from most_followed lines.now name.now) }
{
    let mut end = Str::copy_of(alloc, name)?;
    for _followed in 0..MOST_FOLLOWED {
        match awaited(lines, lives, end.as_str()) {
            Some(next) => end = Str::copy_of(alloc, next)?,
            None => return Ok(end),
        }
    }
    Ok(end)
}

/// What is told of a name that did not settle, by the end of what it waits for.
#[tactic(auto, unfolding(def_see::specs::Rows::unsettled))]
fn unsettled(alloc: Global, name: &str, end: &str) -> Result<Str, Memory>
    ensures { IfOk result (λ text. text ≡ unsettled name.now end.now) }
{
    if name == end {
        Ok(Str::of(format!(in alloc; "{name} is open")?))
    } else {
        Ok(Str::of(format!(in alloc; "{name} waits for {end}")?))
    }
}

/// What is told of a name by the words of the line that tells what the end of what it waits for came to.
fn told_by(alloc: Global, words: &[Str], name: &str, end: &str) -> Result<Str, Memory>
    ensures { IfOk result (λ text. text ≡ (if has 0 (codes "wait") words.now then unsettled name.now end.now else name.now ++ codes " = " ++ word 2 words.now)) }
{
    if has(words, 0, "wait") {
        return unsettled(alloc, name, end);
    }
    let value = word(words, 2);
    Ok(Str::of(format!(in alloc; "{name} = {value}")?))
}

/// What is told of a name by the number of that line.
#[tactic(auto, unfolding(def_see::specs::Rows::told))]
fn told(
    alloc: Global,
    lines: &[Line],
    name: &str,
    end: &str,
    number: Option<usize>,
) -> Result<Str, Memory>
    ensures { IfOk result (λ text. text ≡ told lines.now name.now end.now number) }
{
    match number {
        None => unsettled(alloc, name, end),
        Some(number) => told_by(alloc, words_at(lines, number), name, end),
    }
}

/// What a name came to, followed over what it waits for to the end: `NAME = X` where that settled, at its host or else
/// elsewhere; `NAME waits for END` where it did not; `NAME is open` where it waits for nothing. At most 64 names are followed.
#[tactic(auto, unfolding(def_see::specs::Rows::outcome))]
pub fn outcome(alloc: Global, lines: &[Line], lives: &Lives, name: &str) -> Result<Str, Memory>
    requires { IsLives lines.now lives.now }
    ensures { IfOk result (λ text. text ≡ outcome lines.now name.now) }
{
    let end = end_of(alloc, lines, lives, name)?;
    let number = telling(lines, end.as_str(), lives.life(end.as_str()));
    Ok(told(alloc, lines, name, end.as_str(), number)?)
}
