//! Integers in decimal digits.

ghost use Rattle.std.specs.Prelude.{◌≡◌, ◌<◌, length, IfOk, IsTrue};
ghost use Rattle.std.specs.Str.{all_ascii_digits};
ghost use Rattle.std.specs.List.{list_all};
ghost use Rattle.std.specs.Char.{is_ascii_digit};
ghost use Rattle.std.specs.Fmt.{signed_decimal};
ghost use Rattle.ev_integer.specs.Numerals.{number_of};

use ev_base::{Memory, Str};
use std::alloc::Global;

/// The greatest integer, 2^127 - 1.
const GREATEST: u128 = 170141183460469231731687303715884105727;

/// Whether each byte is a digit.
#[tactic(auto, using(crate::proofs::DigitLemmas::all_are_digits))]
fn all_digits(bytes: &[u8]) -> bool
    ensures { result ≡ list_all is_ascii_digit bytes.now }
{
    bytes.iter().all(|byte| byte.is_ascii_digit())
}

/// The number of a row of digits.
fn number_in(row: &[u8]) -> Option<i128>
    requires digits { IsTrue (all_ascii_digits row.now) }
    requires some { 0 < length row.now }
    ensures { result ≡ number_of row.now }
{
    let mut value: u128 = 0;
    for byte in row {
        let digit = u128::from(*byte - b'0');
        if value > (GREATEST - digit) / 10 {
            return None;
        }
        value = 10 * value + digit;
    }
    Some(value as i128)
}

/// The number that a row of decimal digits spells. None exactly where there is no digit, where there is another byte than a
/// digit, and where the number is above the greatest integer, 2^127 - 1. It takes no memory, and no more than one look at
/// each byte for either test.
#[tactic(auto, using(crate::proofs::DigitLemmas::all_are_digits, crate::proofs::DigitLemmas::number_of_other))]
pub fn read_decimal(digits: &[u8]) -> Option<i128>
    ensures { result ≡ number_of digits.now }
{
    if digits.is_empty() || !all_digits(digits) {
        return None;
    }
    number_in(digits)
}

/// An integer in decimal digits, with `-` before those of a number below 0.
pub fn print(alloc: Global, value: i128) -> Result<Str, Memory>
    ensures { IfOk result (λ text. text ≡ signed_decimal value) }
{
    Ok(Str::of(format!(in alloc; "{value}")?))
}
