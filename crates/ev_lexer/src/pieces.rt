//! What stands at the front of a text: white space or a comment, a token, or the first fault.

ghost use Rattle.std.specs.Prelude.{◌≡◌, ◌∷◌, ◌≤◌, IfSome};
ghost use Rattle.ev_lexer.specs.Pieces.{blank_before, blank_with, line_end, piece, piece_of, start};

use crate::comments::{line_comment, slashed};
use crate::literals::{character, number, text};
use crate::spellings::word_or_operator;
use def_syntax::TokenKind;

/// A character that begins no token.
pub(crate) const BEGINS_NOTHING: u8 = 1;

/// What stands at the front of a text.
#[derive(Clone, Copy)]
pub enum Piece {
    /// So many bytes of white space, or of a comment.
    Blank(usize),
    /// A token of so many bytes.
    Whole(TokenKind, usize),
    /// A fault of this kind behind so many bytes.
    Fault(u8, usize),
}

/// What a byte begins.
#[derive(Clone, Copy)]
pub enum Start {
    Space,
    LineFeed,
    CarriageReturn,
    Backslash,
    Hash,
    Slash,
    Quote,
    Apostrophe,
    Digit,
    Other,
}

/// What a byte begins.
fn start_of(byte: u8) -> Start
    ensures { result ≡ start byte }
{
    match byte {
        b' ' | b'\t' => Start::Space,
        b'\n' => Start::LineFeed,
        b'\r' => Start::CarriageReturn,
        b'\\' => Start::Backslash,
        b'#' => Start::Hash,
        b'/' => Start::Slash,
        b'"' => Start::Quote,
        b'\'' => Start::Apostrophe,
        _ if byte.is_ascii_digit() => Start::Digit,
        _ => Start::Other,
    }
}

/// How long the line end at the front is.
fn line_end(bytes: &[u8]) -> Option<usize>
    ensures value { result ≡ line_end bytes.now }
    ensures short { IfSome result (λ n. n ≤ 2) }
{
    match bytes {
        [] => None,
        [first] => { if *first == b'\n' { Some(1) } else { None } }
        [first, second, ..] => {
            if *first == b'\n' {
                Some(1)
            } else if *first == b'\r' && *second == b'\n' {
                Some(2)
            } else {
                None
            }
        }
    }
}

/// A carriage return before a line feed is white space.
fn carriage_return(bytes: &[u8]) -> Piece
    ensures { result ≡ blank_before (line_end bytes.now) }
{
    match line_end(bytes) {
        Some(_) => Piece::Blank(1),
        None => Piece::Fault(BEGINS_NOTHING, 0),
    }
}

/// A backslash and the line end behind it are white space.
fn backslash(behind: &[u8]) -> Piece
    ensures { result ≡ blank_with (line_end behind.now) }
{
    match line_end(behind) {
        Some(length) => Piece::Blank(1 + length),
        None => Piece::Fault(BEGINS_NOTHING, 0),
    }
}

/// The piece at the front of a text, by its first byte and by what stands behind that.
fn piece_from(first: u8, rest: &str, behind: &[u8]) -> Piece
    requires { rest.now ≡ first ∷ behind.now }
    ensures { result ≡ piece_of (start first) rest.now behind.now }
{
    match start_of(first) {
        Start::Space => Piece::Blank(1),
        Start::LineFeed => Piece::Whole(TokenKind::LineEnd, 1),
        Start::CarriageReturn => carriage_return(rest.as_bytes()),
        Start::Backslash => backslash(behind),
        Start::Hash => line_comment(behind),
        Start::Slash => slashed(rest, behind),
        Start::Quote => text(behind),
        Start::Apostrophe => character(rest, behind),
        Start::Digit => number(rest.as_bytes()),
        Start::Other => word_or_operator(rest),
    }
}

/// What stands at the front of a text that has some byte. Each byte of the piece is looked at a fixed number of times.
#[tactic(auto, unfolding(crate::specs::Pieces::piece))]
pub(crate) fn read_piece(rest: &str) -> Piece
    ensures { result ≡ piece rest.now }
{
    match rest.as_bytes() {
        [] => Piece::Fault(BEGINS_NOTHING, 0),
        [first, behind @ ..] => piece_from(*first, rest, behind),
    }
}
