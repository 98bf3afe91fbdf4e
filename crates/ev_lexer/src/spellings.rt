//! Words and operators at the front of a text.

ghost use Rattle.std.specs.Prelude.{◌≡◌, ◌++◌, chars, encode_utf8, take};
ghost use Rattle.std.specs.Str.{IsCharBoundary, encode_utf8_all};
ghost use Rattle.std.specs.List.{prefix_len};
ghost use Rattle.def_text.specs.Keywords.{continues_identifier};
ghost use Rattle.ev_lexer.specs.Pieces.{front_word, operator, word, word_or_operator};
ghost use Rattle.ev_lexer.specs.Words.{longest_operator, operator_of};

use crate::pieces::{BEGINS_NOTHING, Piece};
use crate::words::{operator, word_kind};
use def_syntax::TokenKind;
use ev_text::{begins_identifier, continues_identifier};

/// The operator that the first bytes are, up to so many, and its length.
fn operator_of(most: usize, text: &str) -> Option<(TokenKind, usize)>
    ensures { result ≡ operator_of most text.now }
{
    let length = most.min(text.len());
    if !text.is_char_boundary(length) {
        return None;
    }
    match operator(&text[..length]) {
        Some(kind) => Some((kind, length)),
        None => None,
    }
}

/// The longest operator with which the text begins: no operator has more than three bytes.
fn longest_operator(text: &str) -> Option<(TokenKind, usize)>
    ensures { result ≡ longest_operator text.now }
{
    match operator_of(3, text) {
        Some(found) => Some(found),
        None => match operator_of(2, text) {
            Some(found) => Some(found),
            None => operator_of(1, text),
        },
    }
}

/// The operator at the front of a text.
pub(crate) fn operator_at(text: &str) -> Piece
    ensures { result ≡ operator (longest_operator text.now) }
{
    match longest_operator(text) {
        Some((kind, length)) => Piece::Whole(kind, length),
        None => Piece::Fault(BEGINS_NOTHING, 0),
    }
}

/// How many bytes at the front go on with an identifier.
fn continuing_length(text: &str) -> usize
    ensures value { take result text.now ≡ encode_utf8_all (take (prefix_len continues_identifier (chars text.now)) (chars text.now)) }
    ensures boundary { IsCharBoundary text.now result }
{
    let mut length = 0;
    for c in text.chars() {
        if continues_identifier(c) {
            length += c.len_utf8();
        } else {
            return length;
        }
    }
    length
}

/// A word: the first character of a text, and those behind it that go on.
fn word(text: &str, first: char, behind: &str) -> Piece
    requires { text.now ≡ encode_utf8 first ++ behind.now }
    ensures { result ≡ word (front_word first (chars behind.now)) }
{
    let width = first.len_utf8();
    let length = width + continuing_length(behind);
    Piece::Whole(word_kind(&text[..length]), length)
}

/// A word, where the first character begins one, or an operator.
#[tactic(auto, using(std::proofs::lemmas::Str::chars_past_char))]
pub(crate) fn word_or_operator(text: &str) -> Piece
    ensures { result ≡ word_or_operator text.now (chars text.now) }
{
    let mut characters = text.chars();
    match characters.next() {
        None => operator_at(text),
        Some(first) => {
            if begins_identifier(first) {
                word(text, first, characters.as_str())
            } else {
                operator_at(text)
            }
        }
    }
}
