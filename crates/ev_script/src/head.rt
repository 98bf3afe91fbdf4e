//! The object that a script is, its key and its fuel.

ghost use Rattle.std.specs.Prelude.{◌≡◌, ◌*◌, ◌+◌, ◌<◌, length, option_map};
ghost use Rattle.std.specs.List.{list_all};
ghost use Rattle.serde_json.specs.View.{view};
ghost use Rattle.ev_script.specs.Head.{fuel_of, hex_value, is_hex_digit, is_key, is_script_object, key_byte, key_bytes, key_from, key_of};

use crate::json::{has_count, has_member, text_at};
use serde_json::Value;

/// How much a run may spend where its script does not say.
const USUAL_FUEL: u32 = 1_000_000;

/// The most that a script may let a run spend.
const GREATEST_FUEL: u64 = 10_000_000;

/// Whether the value is an object with the members `key`, `vats` and `schedule`, perhaps `fuel`, and no other.
pub(crate) fn is_script_object(value: &Value) -> bool
    ensures { result ≡ is_script_object (view value.now) }
{
    let count = if has_member(value, "fuel") { 4 } else { 3 };
    has_count(value, count)
        && has_member(value, "key")
        && has_member(value, "vats")
        && has_member(value, "schedule")
}

fn is_hex_digit(byte: u8) -> bool
    ensures { result ≡ is_hex_digit byte }
{
    byte.is_ascii_digit() || (byte >= b'a' && byte <= b'f')
}

pub fn are_hex_digits(bytes: &[u8]) -> bool
    ensures { result ≡ list_all is_hex_digit bytes.now }
{
    bytes.iter().all(|byte| is_hex_digit(*byte))
}

/// Whether the text is 64 digits.
fn is_key(text: &str) -> bool
    ensures { result ≡ is_key text.now }
{
    text.len() == 64 && are_hex_digits(text.as_bytes())
}

/// What a digit counts.
fn hex_value(byte: u8) -> u8
    ensures value { result ≡ hex_value byte }
    ensures small { result < 16 }
{
    if byte.is_ascii_digit() {
        byte - b'0'
    } else if byte >= b'a' && byte <= b'f' {
        byte - b'a' + 10
    } else {
        0
    }
}

/// The byte that two digits spell.
pub fn key_byte(digits: &[u8], place: usize) -> u8
    requires { 2 * place + 1 < length digits.now }
    ensures { result ≡ key_byte digits.now place }
{
    16 * hex_value(digits[2 * place]) + hex_value(digits[2 * place + 1])
}

/// The bytes that 64 digits spell.
fn key_bytes(digits: &[u8]) -> [u8; 32]
    requires { length digits.now ≡ 64 }
    ensures { result ≡ key_bytes digits.now }
{
    let mut key = [0; 32];
    for place in 0..32 {
        key[place] = key_byte(digits, place);
    }
    key
}

fn key_from(text: &str) -> Option<[u8; 32]>
    ensures { result ≡ key_from text.now }
{
    if !is_key(text) {
        return None;
    }
    Some(key_bytes(text.as_bytes()))
}

/// The key of a script.
pub fn key_of(value: &Value) -> Option<[u8; 32]>
    ensures { result ≡ key_of (view value.now) }
{
    match text_at(value, "key") {
        Some(text) => key_from(text),
        None => None,
    }
}

/// The fuel of a script, which is the usual one where the script does not say.
pub fn fuel_of(value: &Value) -> Option<u32>
    ensures { result ≡ fuel_of (view value.now) }
{
    let Some(member) = value.get("fuel") else {
        return Some(USUAL_FUEL);
    };
    match member.as_u64() {
        Some(fuel) if fuel >= 1 && fuel <= GREATEST_FUEL => Some(fuel as u32),
        _ => None,
    }
}
