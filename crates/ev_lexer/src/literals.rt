//! Numbers, and texts and characters between quotes.

ghost use Rattle.std.specs.Prelude.{◌≡◌, ◌<◌, ◌^◌, ◌==◌, ◌∷◌, IfSome, Some, chars, length, take};
ghost use Rattle.std.specs.Char.{is_ascii_digit};
ghost use Rattle.std.specs.List.{prefix_len};
ghost use Rattle.ev_lexer.specs.Pieces.{bad_escape, character_of, closing, is_one, literal, number, text_of};

use crate::escapes::escape_length;
use crate::pieces::Piece;
use def_syntax::TokenKind;
use ev_integer::read_decimal;

/// A text or a character without a closing quote.
const UNCLOSED_LITERAL: u8 = 2;
/// A bad escape, or a character literal that is not one character.
const BAD_LITERAL: u8 = 3;
/// A number above the greatest integer.
const GREAT_NUMBER: u8 = 4;

/// How many bytes stand before the closing quote.
fn closing(mark: u8, bytes: &[u8]) -> Option<usize>
    ensures value { result ≡ closing mark bytes.now }
    ensures within { IfSome result (λ n. n < length bytes.now) }
{
    let mut place = 0;
    while place < bytes.len() {
        let byte = bytes[place];
        if byte == mark {
            return Some(place);
        }
        if byte == b'\\' {
            place += 2;
        } else {
            place += 1;
        }
    }
    None
}

/// The place of the first backslash that begins no escape.
fn bad_escape(bytes: &[u8]) -> Option<usize>
    ensures value { result ≡ bad_escape 0 bytes.now }
    ensures within { IfSome result (λ n. n < length bytes.now) }
{
    let mut place = 0;
    while place < bytes.len() {
        if bytes[place] == b'\\' {
            match escape_length(&bytes[place + 1..]) {
                Some(length) => place += 1 + length,
                None => return Some(place),
            }
        } else {
            place += 1;
        }
    }
    None
}

/// How many characters a text has.
#[tactic(auto, using(std::proofs::lemmas::Str::chars_from_encodes))]
fn count_characters(text: &str) -> usize
    ensures { result ≡ length (chars text.now) }
{
    text.chars().count()
}

/// Whether what stands between the quotes, without a bad escape, is one character.
fn is_one(inside: &str) -> bool
    ensures { result ≡ is_one inside.now }
{
    match inside.as_bytes() {
        [] => false,
        [first, more @ ..] => {
            if *first == b'\\' {
                match escape_length(more) {
                    Some(length) => more.len() == length,
                    None => false,
                }
            } else {
                count_characters(inside) == 1
            }
        }
    }
}

/// A literal, by what stands between its quotes: whether it may stand there, the place of a bad escape, and its length.
fn literal(kind: TokenKind, is_right: bool, bad: Option<usize>, length: usize) -> Piece
    requires length { length < 2 ^ 63 }
    requires bad { IfSome bad (λ place. place < 2 ^ 63) }
    ensures { result ≡ literal kind is_right bad length }
{
    match bad {
        Some(place) => Piece::Fault(BAD_LITERAL, 1 + place),
        None => {
            if is_right {
                Piece::Whole(kind, 2 + length)
            } else {
                Piece::Fault(BAD_LITERAL, 0)
            }
        }
    }
}

/// A text, by what stands behind its opening quote.
pub(crate) fn text(behind: &[u8]) -> Piece
    ensures { result ≡ text_of behind.now (closing 34 behind.now) }
{
    match closing(b'"', behind) {
        Some(length) => literal(TokenKind::Text, true, bad_escape(&behind[..length]), length),
        None => Piece::Fault(UNCLOSED_LITERAL, 0),
    }
}

/// What stands between the quotes of a character, by its text, by what stands behind the opening quote, and by its length.
fn inside<'a>(rest: &'a str, behind: &[u8], length: usize) -> &'a str
    requires whole { rest.now ≡ 39 ∷ behind.now }
    requires closed { Some length ≡ closing 39 behind.now }
    ensures { result.now ≡ take length behind.now }
{
    &rest[1..1 + length]
}

/// A character, by its text and by what stands behind its opening quote.
pub(crate) fn character(rest: &str, behind: &[u8]) -> Piece
    requires { rest.now ≡ 39 ∷ behind.now }
    ensures { result ≡ character_of behind.now (closing 39 behind.now) }
{
    match closing(b'\'', behind) {
        Some(length) => {
            let is_right = is_one(inside(rest, behind, length));
            literal(
                TokenKind::Character,
                is_right,
                bad_escape(&behind[..length]),
                length,
            )
        }
        None => Piece::Fault(UNCLOSED_LITERAL, 0),
    }
}

/// How many digits stand at the front.
fn count_digits(bytes: &[u8]) -> usize
    ensures { result ≡ prefix_len is_ascii_digit bytes.now }
{
    bytes
        .iter()
        .take_while(|byte| byte.is_ascii_digit())
        .count()
}

/// A number of the digits at the front.
pub(crate) fn number(bytes: &[u8]) -> Piece
    ensures { result ≡ number (take (prefix_len is_ascii_digit bytes.now) bytes.now) }
{
    let count = count_digits(bytes);
    match read_decimal(&bytes[..count]) {
        Some(_) => Piece::Whole(TokenKind::Number, count),
        None => Piece::Fault(GREAT_NUMBER, 0),
    }
}
