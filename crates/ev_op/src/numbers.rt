//! Numbers at the front of the bytes.

ghost use Rattle.std.specs.Prelude.{◌≡◌, ◌<◌, ◌≤◌, ◌^◌, IfOk, IfErr};
ghost use Rattle.ev_op.specs.declared.fault.ReadError.TheVariants.{Refused};
ghost use Rattle.def_op.specs.Numbers.{bound, byte_bound, digit, is_primitive};
ghost use Rattle.ev_op.specs.Gives.{Gives};
ghost use Rattle.def_op.specs.Reading.{digits_at, last_digit, lower_digit, unsigned_at, signed_at, low_first_at, swiss_at, vat_at, primitive_at, few_at, character_at};
ghost use Rattle.ev_op.specs.DigitsView.{digits_view};

use crate::fault::ReadError;

/// A number in digits to the base 128, and the bytes behind it.
#[derive(Clone, Copy)]
pub(crate) struct Digits<'a> {
    /// Whether each digit is turned round.
    negative: bool,
    number: u128,
    rest: &'a [u8],
}

/// A digit, turned round where the number is negative.
pub(crate) fn digit(negative: bool, value: u8) -> u8
    requires { value < 128 }
    ensures exact { result ≡ digit negative value }
    ensures small { result < 128 }
{
    if negative { 127 - value } else { value }
}

/// The number of one digit.
fn last_digit_of(last: u8, byte: u8, rest: &[u8]) -> Digits<'_>
    requires { byte < 128 }
    ensures exact { digits_view result ≡ last_digit last byte rest.now }
    ensures small { result.number < 128 }
{
    let negative = last <= byte;
    Digits {
        negative,
        number: u128::from(digit(negative, byte)),
        rest,
    }
}

/// The number in digits at the front: at most `places + 1` bytes in the shortest spelling, the last byte turned round
/// from `last` on.
#[tactic(auto, unfolding(def_op::specs::Reading::digits_at))]
fn digits_of(last: u8, places: u32, bytes: &[u8]) -> Result<Digits<'_>, ReadError>
    requires { bound places ≤ 2 ^ 127 }
    ensures exact { Gives digits_view result (digits_at last places bytes.now) }
    ensures refused { IfErr result (λ e. e ≡ Refused) }
    ensures below { IfOk result (λ d. d.number < bound places) }
{
    let Some((first, rest)) = bytes.split_first() else {
        return Err(ReadError::Refused);
    };
    if *first < 128 {
        let only = last_digit_of(last, *first, rest);
        if places == 0 && only.number >= 2 {
            return Err(ReadError::Refused);
        }
        return Ok(only);
    }
    if places == 0 {
        return Err(ReadError::Refused);
    }
    let high = digits_of(last, places - 1, rest)?;
    let low = digit(high.negative, *first - 128);
    let number = 128 * high.number + u128::from(low);
    if number < u128::from(last) {
        return Err(ReadError::Refused);
    }
    Ok(Digits {
        negative: high.negative,
        number,
        rest: high.rest,
    })
}

/// A number below 2 ^ 64.
pub fn unsigned_of(bytes: &[u8]) -> Result<(u64, &[u8]), ReadError>
    ensures exact { Gives (λ x. (x.0, x.1.now)) result (unsigned_at bytes.now) }
    ensures refused { IfErr result (λ e. e ≡ Refused) }
{
    let digits = digits_of(128, 9, bytes)?;
    Ok((digits.number as u64, digits.rest))
}

/// A number of 128 bits with a sign.
pub fn signed_of(bytes: &[u8]) -> Result<(i128, &[u8]), ReadError>
    ensures exact { Gives (λ x. (x.0, x.1.now)) result (signed_at bytes.now) }
    ensures refused { IfErr result (λ e. e ≡ Refused) }
{
    let digits = digits_of(64, 18, bytes)?;
    let number = digits.number as i128;
    if digits.negative {
        Ok((-1 - number, digits.rest))
    } else {
        Ok((number, digits.rest))
    }
}

/// A number in so many bytes, the lowest first.
#[tactic(auto, unfolding(def_op::specs::Reading::low_first_at))]
fn low_first_of(places: u32, bytes: &[u8]) -> Result<(u128, &[u8]), ReadError>
    requires { byte_bound places ≤ 2 ^ 128 }
    ensures exact { Gives (λ x. (x.0, x.1.now)) result (low_first_at places bytes.now) }
    ensures refused { IfErr result (λ e. e ≡ Refused) }
    ensures below { IfOk result (λ x. x.0 < byte_bound places) }
{
    if places == 0 {
        return Ok((0, bytes));
    }
    let Some((first, rest)) = bytes.split_first() else {
        return Err(ReadError::Refused);
    };
    let (high, rest) = low_first_of(places - 1, rest)?;
    Ok((u128::from(*first) + 256 * high, rest))
}

/// A drawn number, in 16 bytes.
pub fn swiss_of(bytes: &[u8]) -> Result<(u128, &[u8]), ReadError>
    ensures exact { Gives (λ x. (x.0, x.1.now)) result (swiss_at bytes.now) }
    ensures refused { IfErr result (λ e. e ≡ Refused) }
{
    low_first_of(16, bytes)
}

/// The place of a vat.
pub fn vat_of(bytes: &[u8]) -> Result<(u8, &[u8]), ReadError>
    ensures exact { Gives (λ x. (x.0, x.1.now)) result (vat_at bytes.now) }
    ensures refused { IfErr result (λ e. e ≡ Refused) }
{
    match bytes.split_first() {
        Some((vat, rest)) if *vat < 16 => Ok((*vat, rest)),
        _ => Err(ReadError::Refused),
    }
}

/// The number of a primitive.
pub fn primitive_of(bytes: &[u8]) -> Result<(u8, &[u8]), ReadError>
    ensures exact { Gives (λ x. (x.0, x.1.now)) result (primitive_at bytes.now) }
    ensures refused { IfErr result (λ e. e ≡ Refused) }
{
    match bytes.split_first() {
        Some((number, rest)) if is_primitive(*number) => Ok((*number, rest)),
        _ => Err(ReadError::Refused),
    }
}

/// Whether a primitive has this number.
fn is_primitive(number: u8) -> bool
    ensures { result ≡ is_primitive number }
{
    number < 20 || (number >= 40 && number < 47) || number == 48 || number == 49
}

/// A count of at most 255.
pub fn few_of(bytes: &[u8]) -> Result<(u64, &[u8]), ReadError>
    ensures exact { Gives (λ x. (x.0, x.1.now)) result (few_at bytes.now) }
    ensures refused { IfErr result (λ e. e ≡ Refused) }
{
    let (count, rest) = unsigned_of(bytes)?;
    if count > 255 {
        return Err(ReadError::Refused);
    }
    Ok((count, rest))
}

/// A character, by its number.
#[tactic(auto, unfolding(def_op::specs::Reading::character_at))]
pub fn character_of(bytes: &[u8]) -> Result<(char, &[u8]), ReadError>
    ensures exact { Gives (λ x. (x.0, x.1.now)) result (character_at bytes.now) }
    ensures refused { IfErr result (λ e. e ≡ Refused) }
{
    let (number, rest) = unsigned_of(bytes)?;
    let Ok(number) = u32::try_from(number) else {
        return Err(ReadError::Refused);
    };
    match char::from_u32(number) {
        Some(character) => Ok((character, rest)),
        None => Err(ReadError::Refused),
    }
}
