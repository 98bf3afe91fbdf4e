//! What the words of a surface tree stand for.

ghost use Rattle.std.specs.Prelude.{◌≡◌, IfOk, option_map};
ghost use Rattle.std.specs.Str.{chars};
ghost use Rattle.ev_desugar.specs.Words.{arithmetic, character, comparing, character_behind, ejector, escape_text, first_of, number, prefixing, ranging, text, updating, verb_behind};

use ev_base::{Memory, Str};
use ev_integer::read_decimal;
use ev_text::{EscapeFault, unquote};
use std::alloc::Global;

/// The verb of an arithmetic operator.
#[tactic(auto, unfolding(crate::specs::Words::arithmetic))]
pub(crate) fn arithmetic(operator: &str) -> Option<&'static str>
    ensures { option_map (λ verb. verb.now) result ≡ arithmetic operator.now }
{
    match operator {
        "+" => Some("add"),
        "-" => Some("subtract"),
        "*" => Some("multiply"),
        "//" => Some("floorDivide"),
        "%" => Some("remainder"),
        "%%" => Some("mod"),
        "**" => Some("pow"),
        "&" => Some("and"),
        "|" => Some("or"),
        "^" => Some("xor"),
        _ => None,
    }
}

/// The verb of an operator that assigns, other than `:=`.
#[tactic(auto, unfolding(crate::specs::Words::updating))]
pub(crate) fn updating(operator: &str) -> Option<&'static str>
    ensures { option_map (λ verb. verb.now) result ≡ updating operator.now }
{
    match operator {
        "+=" => Some("add"),
        "-=" => Some("subtract"),
        "*=" => Some("multiply"),
        "//=" => Some("floorDivide"),
        "%=" => Some("remainder"),
        "%%=" => Some("mod"),
        "**=" => Some("pow"),
        "&=" => Some("and"),
        "|=" => Some("or"),
        "^=" => Some("xor"),
        _ => None,
    }
}

/// The verb of an operator that compares.
#[tactic(auto, unfolding(crate::specs::Words::comparing))]
pub(crate) fn comparing(operator: &str) -> Option<&'static str>
    ensures { option_map (λ verb. verb.now) result ≡ comparing operator.now }
{
    match operator {
        "<" => Some("lessThan"),
        "<=" => Some("leq"),
        "<=>" => Some("asBigAs"),
        ">=" => Some("geq"),
        ">" => Some("greaterThan"),
        _ => None,
    }
}

/// The verb of a range.
#[tactic(auto, unfolding(crate::specs::Words::ranging))]
pub(crate) fn ranging(operator: &str) -> &'static str
    ensures { result.now ≡ ranging operator.now }
{
    match operator {
        ".." => "through",
        _ => "till",
    }
}

/// The verb of a prefix.
#[tactic(auto, unfolding(crate::specs::Words::prefixing))]
pub(crate) fn prefixing(operator: &str) -> &'static str
    ensures { result.now ≡ prefixing operator.now }
{
    match operator {
        "-" => "negate",
        _ => "not",
    }
}

/// The name of the ejector that a `return`, `break` or `continue` calls.
#[tactic(auto, unfolding(crate::specs::Words::ejector))]
pub(crate) fn ejector(alloc: Global, word: &str) -> Result<Str, Memory>
    ensures { IfOk result (λ name. name ≡ ejector word.now) }
{
    let mut name = Str::copy_of(alloc, "__")?;
    name.push(word)?;
    Ok(name)
}

/// The number of a row of digits.
#[tactic(auto, unfolding(crate::specs::Words::number, crate::specs::Words::number_found))]
pub fn number(digits: &str) -> i128
    ensures { result ≡ number digits.now }
{
    match read_decimal(digits.as_bytes()) {
        None => 0,
        Some(value) => value,
    }
}

/// The text of a text token.
#[tactic(auto, unfolding(crate::specs::Words::text, crate::specs::Words::text_found))]
pub fn text(alloc: Global, spelling: &str) -> Result<Str, Memory>
    ensures { IfOk result (λ value. value ≡ text spelling.now) }
{
    match unquote(alloc, spelling) {
        Ok(value) => Ok(Str::of(value)),
        Err(EscapeFault::At(_)) => Ok(Str::new(alloc)),
        Err(EscapeFault::Memory) => Err(Memory),
    }
}

/// The verb that is an identifier or a text.
#[tactic(auto, unfolding(crate::specs::Words::verb_behind))]
pub fn verb_behind(alloc: Global, verb: &str) -> Result<Str, Memory>
    ensures { IfOk result (λ value. value ≡ verb_behind verb.now) }
{
    match verb.as_bytes() {
        [b'"', ..] => text(alloc, verb),
        _ => Str::copy_of(alloc, verb),
    }
}

/// The first character of a text.
#[tactic(auto, unfolding(crate::specs::Words::first_of))]
fn first_character(text: &str) -> char
    ensures { result ≡ first_of (chars text.now) }
{
    match text.chars().next() {
        None => '\0',
        Some(c) => c,
    }
}

/// The text of an escape that is followed so.
#[tactic(auto, unfolding(crate::specs::Words::escape_text))]
fn escape_text(alloc: Global, behind: &str) -> Result<Str, Memory>
    ensures { IfOk result (λ value. value ≡ escape_text behind.now) }
{
    let mut spelling = String::from_str(alloc, "\"")?;
    spelling.push_str(behind)?;
    spelling.push_str("\"")?;
    text(alloc, spelling.as_str())
}

/// The character behind the opening quote of a character token.
#[tactic(auto, unfolding(crate::specs::Words::character_behind))]
fn character_behind(alloc: Global, behind: &str) -> Result<char, Memory>
    ensures { IfOk result (λ c. c ≡ character_behind behind.now) }
{
    match behind.as_bytes() {
        [] => Ok('\0'),
        [b'\\', ..] => {
            let value = escape_text(alloc, behind)?;
            Ok(first_character(value.as_str()))
        }
        _ => Ok(first_character(behind)),
    }
}

/// The character of a character token.
#[tactic(auto, unfolding(crate::specs::Words::character))]
pub fn character(alloc: Global, spelling: &str) -> Result<char, Memory>
    ensures { IfOk result (λ c. c ≡ character spelling.now) }
{
    match spelling.strip_prefix('\'') {
        None => Ok('\0'),
        Some(behind) => character_behind(alloc, behind),
    }
}
