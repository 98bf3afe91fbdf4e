//! What a text between quotes stands for.

ghost use Rattle.std.specs.Prelude.{◌≡◌, ℕ, ◌+◌, ◌-◌, ◌<◌, ◌≤◌, ◌^◌, ◌++◌, IfNone, IfSome, IsTrue, List, slice_get, encode_utf8, drop, Ok, Err, length, if◌then◌else◌, nat_lt, Some, None};
ghost use Rattle.std.specs.Char.{digit_value};
ghost use Rattle.std.specs.List.{prefix_len};
ghost use Rattle.def_text.specs.Quoting.{quoted};
ghost use Rattle.ev_text.specs.Unquoting.{named, two_digits, three_digits, hexadecimal, by_digits, escape, is_plain, with_front, text_behind, unquoted, Answers};

use std::alloc::{AllocError, Global};
use std::error::Error;
use std::fmt;

/// Why a spelling is that of no text.
#[derive(Clone, Copy, Debug)]
pub enum EscapeFault {
    /// The offset of the first byte at which it is none: of the backslash of an escape that is none, of the end where a
    /// closing quote is missing, of what stands behind the closing quote, and 0 where there is no opening quote.
    At(u64),
    Memory,
}

impl fmt::Display for EscapeFault {
    ghost use Rattle.std.specs.Prelude.{Some};
    ghost use Rattle.ev_text.specs.Faults.{fault_text};

    ghost output = { λ fault. Some (fault_text fault) };

    fn fmt<W: fmt::Write>(&self, f: &mut fmt::Formatter<W>) -> fmt::Result {
        match self {
            EscapeFault::At(place) => write!(f, "no text at {place}"),
            EscapeFault::Memory => write!(f, "out of memory"),
        }
    }
}

impl Error for EscapeFault {}

impl From<AllocError> for EscapeFault {
    ghost use Rattle.std.specs.Prelude.{◌≡◌};
    ghost use Rattle.ev_text.specs.declared.spellings.EscapeFault.TheVariants.{Memory};

    ghost from_gives = { λ _ e. e ≡ Memory };

    fn from(_error: AllocError) -> EscapeFault {
        EscapeFault::Memory
    }
}

/// The value of a hexadecimal digit.
fn digit(byte: u8) -> Option<u32>
    ensures { result ≡ (if nat_lt (digit_value byte) 16 then Some (digit_value byte) else None) }
{
    (byte as char).to_digit(16)
}

/// The character of an escape of one letter.
fn named(letter: u8) -> Option<char>
    ensures { result ≡ named letter }
{
    match letter {
        b'n' => Some('\n'),
        b't' => Some('\t'),
        b'r' => Some('\r'),
        b'\\' => Some('\\'),
        b'"' => Some('"'),
        b'\'' => Some('\''),
        _ => None,
    }
}

/// The number of two hexadecimal digits.
fn two_digits(a: u8, b: u8) -> Option<u32>
    ensures value { result ≡ two_digits a b }
    ensures small { IfSome result (λ number. number < 256) }
{
    let a = digit(a)?;
    let b = digit(b)?;
    Some(a * 16 + b)
}

/// The number of three hexadecimal digits.
fn three_digits(a: u8, b: u8, c: u8) -> Option<u32>
    ensures value { result ≡ three_digits a b c }
    ensures small { IfSome result (λ number. number < 4096) }
{
    let number = two_digits(a, b)?;
    let c = digit(c)?;
    Some(number * 16 + c)
}

/// The number of four hexadecimal digits.
fn hexadecimal(a: u8, b: u8, c: u8, d: u8) -> Option<u32>
    ensures { result ≡ hexadecimal a b c d }
{
    let number = three_digits(a, b, c)?;
    let d = digit(d)?;
    Some(number * 16 + d)
}

/// The character of four digits, and how many bytes behind the backslash stand for it.
fn by_digits(bytes: &[u8]) -> Option<(char, usize)>
    ensures value { result ≡ by_digits bytes.now }
    ensures short { IfSome result (λ found. found.1 ≤ 5) }
{
    match bytes {
        [a, b, c, d, ..] => match char::from_u32(hexadecimal(*a, *b, *c, *d)?) {
            Some(character) => Some((character, 5)),
            None => None,
        },
        _ => None,
    }
}

/// The character of the escape whose backslash stands before the bytes, and how many of them it takes: 1 of an escape of one
/// letter, 5 of one by number.
pub fn escape(bytes: &[u8]) -> Option<(char, usize)>
    ensures value { result ≡ escape bytes.now }
    ensures short { IfSome result (λ found. found.1 ≤ 5) }
{
    match bytes {
        [] => None,
        [b'u', more @ ..] => by_digits(more),
        [letter, ..] => match named(*letter) {
            Some(character) => Some((character, 1)),
            None => None,
        },
    }
}

/// The first byte of a text.
fn first_byte(text: &str) -> Option<u8>
    ensures { result ≡ slice_get text.now 0 }
{
    text.as_bytes().first().copied()
}

/// The escape behind the first byte of a text.
fn first_escape(text: &str) -> Option<(char, usize)>
    ensures { result ≡ escape (drop 1 text.now) }
{
    match text.as_bytes() {
        [] => None,
        [_, more @ ..] => escape(more),
    }
}

/// How many bytes at the front of a text stand for themselves.
fn plain_length(text: &str) -> usize
    ensures { result ≡ prefix_len is_plain text.now }
{
    text.bytes()
        .take_while(|b| *b != b'"' && *b != b'\\')
        .count()
}

/// The character of the escape with which the text begins, and what stands behind it.
fn past_escape(rest: &str) -> Option<(char, &str)>
    requires { slice_get rest.now 0 ≡ Some 92 }
    ensures none { IfNone result ((place : ℕ) → text_behind 0 place rest.now ≡ Err place) }
    ensures shorter { IfSome result (λ r. length r.1.now < length rest.now) }
    ensures some { IfSome result (λ r. (place : ℕ) → text_behind 0 place rest.now ≡ with_front (encode_utf8 r.0) (text_behind 0 (place + (length rest.now - length r.1.now)) r.1.now)) }
{
    match first_escape(rest) {
        None => None,
        Some((c, taken)) => Some((c, &rest[1 + taken..])),
    }
}

/// The bytes at the front that stand for themselves, and what stands behind them.
fn past_plain(rest: &str) -> (&str, &str)
    ensures whole { rest.now ≡ result.0.now ++ result.1.now }
    ensures plain { (place : ℕ) → text_behind 0 place rest.now ≡ with_front result.0.now (text_behind 0 (place + length result.0.now) result.1.now) }
    ensures some { IfSome (slice_get rest.now 0) (λ b. IsTrue (is_plain b) → 0 < length result.0.now) }
{
    let count = plain_length(rest);
    (&rest[..count], &rest[count..])
}

/// What the bytes behind an opening quote spell.
fn text_behind(alloc: Global, behind: &str) -> Result<String, EscapeFault>
    requires { length behind.now < 2 ^ 63 }
    ensures { Answers result (text_behind 0 1 behind.now) }
{
    let mut text = String::new(alloc);
    let mut rest = behind;
    let mut place = 1u64;
    while let Some(first) = first_byte(rest) {
        if first == b'"' {
            return if rest.len() == 1 {
                Ok(text)
            } else {
                Err(EscapeFault::At(place + 1))
            };
        }
        if first == b'\\' {
            let Some((c, behind_it)) = past_escape(rest) else {
                return Err(EscapeFault::At(place));
            };
            text.push(c)?;
            place += (rest.len() - behind_it.len()) as u64;
            rest = behind_it;
        } else {
            let (front, behind_it) = past_plain(rest);
            text.push_str(front)?;
            place += front.len() as u64;
            rest = behind_it;
        }
    }
    Err(EscapeFault::At(place))
}

/// The text that a text token stands for: it begins and ends with `"`, and each backslash in it begins one of the escapes
/// `\n`, `\t`, `\r`, `\\`, `\"`, `\'`, or `\u` with four hexadecimal digits that are the number of a character.
pub fn unquote(alloc: Global, spelling: &str) -> Result<String, EscapeFault>
    ensures { Answers result (unquoted spelling.now) }
{
    match spelling.strip_prefix('"') {
        Some(behind) => text_behind(alloc, behind),
        None => Err(EscapeFault::At(0)),
    }
}

/// A text that is written between quotes is read as that text again.
#[tactic(auto, using(crate::proofs::RoundTrip::reads_quoted))]
pub fn unquote_undoes_quote()
    ensures { (text : List ℕ) → unquoted (quoted text) ≡ Ok text }
{}
