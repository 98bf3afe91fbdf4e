//! What a word of digits and names stands for.

ghost use Rattle.std.specs.Prelude.{◌≡◌, ◌≤◌, ◌<◌, length, option_map};
ghost use Rattle.ev_script.specs.Vats.{place_of};
ghost use Rattle.ev_trace_words.specs.Parts.{activation, answer, before_mark, behind_label, behind_mark, claimed, constant, count, guarded, message, name, numbered, otherwise, plain, primitive, primitive_in, primitive_named, primitive_number, provided, root, split_at};

use def_event::shown::Shown;
use ev_base::{Msg, Name, PrimId, Str, Value, VatId, safe_value};
use ev_text::{integer, number, spelled_number};

/// The vat that a word names: its place among the names of the vats.
pub fn vat(names: &[Str], word: &str) -> Option<VatId>
    requires { length names.now ≤ 16 }
    ensures { result ≡ place_of names.now word.now }
{
    let mut place: u8 = 0;
    for name in names {
        if word == name.as_str() {
            return Some(VatId(place));
        }
        place += 1;
    }
    None
}

/// What stands before and behind the first such character.
fn split_at(word: &str, mark: char) -> Option<(&str, &str)>
    requires { mark < 128 }
    ensures { option_map (λ parts. (parts.0.now, parts.1.now)) result ≡ split_at mark word.now }
{
    word.split_once(mark)
}

/// What stands behind such a character, where the word begins with it.
pub(crate) fn behind_mark(word: &str, mark: char) -> Option<&str>
    requires { mark < 128 }
    ensures { option_map (λ rest. rest.now) result ≡ behind_mark mark word.now }
{
    let (front, behind) = split_at(word, mark)?;
    if front.len() == 0 { Some(behind) } else { None }
}

/// What stands before such a character, where the word ends with its first one.
fn before_mark(word: &str, mark: char) -> Option<&str>
    requires { mark < 128 }
    ensures { option_map (λ rest. rest.now) result ≡ before_mark mark word.now }
{
    let (front, behind) = split_at(word, mark)?;
    if behind.len() == 0 { Some(front) } else { None }
}

/// What stands behind a label and a colon.
pub(crate) fn behind_label<'w>(word: &'w str, label: &str) -> Option<&'w str>
    ensures { option_map (λ rest. rest.now) result ≡ behind_label label.now word.now }
{
    let (front, behind) = split_at(word, ':')?;
    if front == label { Some(behind) } else { None }
}

/// A number below 2^64, in decimal without a leading zero.
pub fn count(word: &str) -> Option<u64>
    ensures { result ≡ count word.now }
{
    number(word, u64::MAX)
}

/// The number of an activation, behind `!`.
pub fn activation(word: &str) -> Option<u64>
    ensures { result ≡ activation word.now }
{
    let digits = behind_mark(word, '!')?;
    count(digits)
}

fn primitive_in(value: Value) -> Option<u8>
    ensures { result ≡ primitive_in value }
{
    match value {
        Value::Prim(primitive) => Some(primitive.0),
        _ => None,
    }
}

/// The number of a primitive of the safe scope by its name.
fn primitive_number(word: &str) -> Option<u8>
    ensures { result ≡ primitive_number word.now }
{
    match safe_value(word) {
        Some(value) => primitive_in(value),
        None => None,
    }
}

/// The number of `nullOk` with the guard of this number, where it may have it.
fn guarded(number: u8) -> Option<u8>
    ensures { result ≡ guarded number }
{
    if number > 7 && number < 15 || number == 16 || number == 17 {
        Some(32 + number)
    } else {
        None
    }
}

fn primitive_named(word: &str, guard: Option<&str>) -> Option<u8>
    ensures { result ≡ primitive_named word.now (option_map (λ g. g.now) guard.entry) }
{
    match guard {
        None => primitive_number(word),
        Some(guard) => {
            let number = primitive_number(guard)?;
            guarded(number)
        }
    }
}

/// A primitive by its name between `<` and `>`.
fn primitive(word: &str) -> Option<u8>
    ensures { result ≡ primitive word.now }
{
    let behind = behind_mark(word, '<')?;
    let named = before_mark(behind, '>')?;
    primitive_named(named, behind_label(named, "nullOk"))
}

/// A thing of a vat by such a mark and its number there.
pub fn numbered(names: &[Str], word: &str, mark: char) -> Option<(VatId, u64)>
    requires few { length names.now ≤ 16 }
    requires ascii { mark < 128 }
    ensures { result ≡ numbered names.now mark word.now }
{
    let (front, behind) = split_at(word, mark)?;
    let host = vat(names, front)?;
    let number = count(behind)?;
    Some((host, number))
}

/// A message, by the vat that sent it, `/`, and its number there.
pub fn message(names: &[Str], word: &str) -> Option<Msg>
    requires { length names.now ≤ 16 }
    ensures { result ≡ message names.now word.now }
{
    let (sender, number) = numbered(names, word, '/')?;
    Some(Msg { sender, number })
}

fn root(names: &[Str], word: &str) -> Option<Name>
    requires { length names.now ≤ 16 }
    ensures { result ≡ root names.now word.now }
{
    let named = behind_mark(word, '@')?;
    let host = vat(names, named)?;
    Some(Name::Root(host))
}

fn answer(names: &[Str], word: &str) -> Option<Name>
    requires { length names.now ≤ 16 }
    ensures { result ≡ answer names.now word.now }
{
    let (front, behind) = split_at(word, '?')?;
    let host = vat(names, front)?;
    let answered = message(names, behind)?;
    Some(Name::Answer(host, answered))
}

/// A vat, and behind `:` a number of 128 bits by its bytes, the lowest first.
fn provided(names: &[Str], word: &str) -> Option<(VatId, u128)>
    requires { length names.now ≤ 16 }
    ensures { result ≡ provided names.now word.now }
{
    let (front, behind) = split_at(word, ':')?;
    let provider = vat(names, front)?;
    let number = spelled_number(behind)?;
    Some((provider, number))
}

/// A gift that a frame of a hostile vat named by its host, its provider and its number.
fn claimed(names: &[Str], word: &str) -> Option<Name>
    requires { length names.now ≤ 16 }
    ensures { result ≡ claimed names.now word.now }
{
    let (front, behind) = split_at(word, '^')?;
    let host = vat(names, front)?;
    let (provider, number) = provided(names, behind)?;
    Some(Name::Claimed(host, provider, number))
}

/// A root, or a gift that a frame of a hostile vat named.
fn root_or_claimed(names: &[Str], word: &str) -> Option<Name>
    requires { length names.now ≤ 16 }
    ensures { result ≡ otherwise (root names.now word.now) (claimed names.now word.now) }
{
    match root(names, word) {
        Some(found) => Some(found),
        None => claimed(names, word),
    }
}

/// The name of an object, a promise, an answer, a gift or a root.
pub fn name(names: &[Str], word: &str) -> Option<Name>
    requires { length names.now ≤ 16 }
    ensures { result ≡ name names.now word.now }
{
    if let Some((host, number)) = numbered(names, word, '.') {
        return Some(Name::Object(host, number));
    }
    if let Some((host, number)) = numbered(names, word, '~') {
        return Some(Name::Own(host, number));
    }
    if let Some((host, number)) = numbered(names, word, '^') {
        return Some(Name::Gift(host, number));
    }
    match answer(names, word) {
        Some(found) => Some(found),
        None => root_or_claimed(names, word),
    }
}

fn constant(word: &str) -> Option<Shown>
    ensures { result ≡ constant word.now }
{
    match word {
        "null" => Some(Shown::Null),
        "true" => Some(Shown::Bool(true)),
        "false" => Some(Shown::Bool(false)),
        _ => None,
    }
}

/// A value that has no text in it and is no list and no slot.
pub(crate) fn plain(names: &[Str], word: &str) -> Option<Shown>
    requires { length names.now ≤ 16 }
    ensures { result ≡ plain names.now word.now }
{
    if let Some(found) = constant(word) {
        return Some(found);
    }
    if let Some(number) = integer(word) {
        return Some(Shown::Int(number));
    }
    if let Some(number) = primitive(word) {
        return Some(Shown::Prim(PrimId(number)));
    }
    match name(names, word) {
        Some(found) => Some(Shown::Name(found)),
        None => None,
    }
}
