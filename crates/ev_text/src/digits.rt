//! Numbers in decimal, and bytes by their digits.

ghost use Rattle.std.specs.Prelude.{◌≡◌, ◌≤◌, ◌-◌, ◌^◌, ◌∷◌, IfSome, IsTrue, neg_ℤ, option_map, pos};
ghost use Rattle.std.specs.Char.{is_ascii_digit};
ghost use Rattle.std.specs.List.{list_all};
ghost use Rattle.std.specs.Str.{all_ascii_digits};
ghost use Rattle.ev_text.specs.Lines.{begins_with_zero, bounded, bytes, integer, is_lower_digit, is_numeral, number, positive, spelled_number};

use ev_integer::read_decimal;
use hex::FromHex;

/// Whether each byte is a decimal digit.

fn are_digits(bytes: &[u8]) -> bool
    ensures { result ≡ list_all is_ascii_digit bytes.now }
{
    bytes.iter().all(|byte| byte.is_ascii_digit())
}

fn begins_with_zero(bytes: &[u8]) -> bool
    ensures { result ≡ begins_with_zero bytes.now }
{
    match bytes {
        [] => false,
        [first, ..] => *first == b'0',
    }
}

/// Whether the bytes are digits alone, with no leading zero but in `0` itself.
#[tactic(auto, using(ev_integer::proofs::DigitLemmas::all_are_digits))]
fn is_numeral(bytes: &[u8]) -> bool
    ensures { result ≡ is_numeral bytes.now }
{
    are_digits(bytes) && (bytes.len() == 1 || !begins_with_zero(bytes))
}

/// The number of the digits, where it is not above the greatest.
fn bounded(text: &str, most: u64) -> Option<u64>
    requires { IsTrue (all_ascii_digits text.now) }
    ensures { result ≡ bounded most text.now }
{
    match text.parse::<u64>() {
        Ok(value) if value <= most => Some(value),
        Ok(_) => None,
        Err(_) => None,
    }
}

/// The number that a text spells in decimal without a leading zero, but in `0` itself, where it is not above the greatest.
pub fn number(text: &str, most: u64) -> Option<u64>
    ensures value { result ≡ number most text.now }
    ensures small { IfSome result (λ value. value ≤ most) }
{
    if !is_numeral(text.as_bytes()) {
        return None;
    }
    bounded(text, most)
}

/// The integer of a text without a sign.
#[tactic(auto, using(crate::proofs::Parsed::unsigned_none, crate::proofs::Parsed::unsigned_is))]
fn unsigned_integer(text: &[u8]) -> Option<i128>
    ensures { result ≡ option_map pos (number (2 ^ 127 - 1) text.now) }
{
    if !is_numeral(text) {
        return None;
    }
    read_decimal(text)
}

/// The integer of a text that is `-` and these digits.
#[tactic(auto, using(crate::proofs::Parsed::negative_none))]
fn negative_integer(text: &str, digits: &[u8]) -> Option<i128>
    requires { text.now ≡ 45 ∷ digits.now }
    ensures { result ≡ option_map (λ n. neg_ℤ (pos n)) (positive digits.now) }
{
    if begins_with_zero(digits) || !is_numeral(digits) {
        return None;
    }
    text.parse::<i128>().ok()
}

/// The integer that a text spells in decimal without a leading zero, with `-` before one below 0.
pub fn integer(text: &str) -> Option<i128>
    ensures { result ≡ integer text.now }
{
    match text.as_bytes() {
        [] => None,
        [b'-', digits @ ..] => negative_integer(text, digits),
        _ => unsigned_integer(text.as_bytes()),
    }
}

fn is_lower_digit(byte: u8) -> bool
    ensures { result ≡ is_lower_digit byte }
{
    byte.is_ascii_digit() || (byte >= b'a' && byte <= b'f')
}

fn are_lower_digits(bytes: &[u8]) -> bool
    ensures { result ≡ list_all is_lower_digit bytes.now }
{
    bytes.iter().all(|byte| is_lower_digit(*byte))
}

/// The 16 bytes that 32 digits out of 0 to 9 and a to f spell.
fn bytes_16(text: &str) -> Option<[u8; 16]>
    ensures { result ≡ bytes 16 text.now }
{
    if !are_lower_digits(text.as_bytes()) {
        return None;
    }
    <[u8; 16] as FromHex>::from_hex(text).ok()
}

/// The 32 bytes that 64 digits out of 0 to 9 and a to f spell.
pub fn bytes_32(text: &str) -> Option<[u8; 32]>
    ensures { result ≡ bytes 32 text.now }
{
    if !are_lower_digits(text.as_bytes()) {
        return None;
    }
    <[u8; 32] as FromHex>::from_hex(text).ok()
}

/// The number whose bytes 32 digits out of 0 to 9 and a to f spell, the lowest first.
pub fn spelled_number(text: &str) -> Option<u128>
    ensures { result ≡ spelled_number text.now }
{
    let bytes = bytes_16(text)?;
    Some(u128::from_le_bytes(bytes))
}
