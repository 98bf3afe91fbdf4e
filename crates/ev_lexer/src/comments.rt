//! Comments.

ghost use Rattle.std.specs.Prelude.{◌≡◌, ◌+◌, ◌==◌, ◌&&◌, not, IfSome, length, ◌≤◌};
ghost use Rattle.std.specs.List.{prefix_len};
ghost use Rattle.ev_lexer.specs.declared.pieces.Piece.TheVariants.{Blank};
ghost use Rattle.ev_lexer.specs.Pieces.{comment_end, commented, slashed};

use crate::pieces::Piece;
use crate::spellings::operator_at;

/// A comment without an end.
const UNCLOSED_COMMENT: u8 = 5;

/// How many bytes stand before the first line feed.
fn line_length(bytes: &[u8]) -> usize
    ensures value { result ≡ prefix_len (λ c. not (c == 10)) bytes.now }
    ensures within { result ≤ length bytes.now }
{
    bytes.iter().take_while(|byte| **byte != b'\n').count()
}

/// A comment to the end of the line, by what stands behind its `#`.
pub(crate) fn line_comment(behind: &[u8]) -> Piece
    ensures { result ≡ Blank (1 + prefix_len (λ c. not (c == 10)) behind.now) }
{
    Piece::Blank(1 + line_length(behind))
}

/// Whether two bytes end a comment.
fn ends_comment(first: u8, second: u8) -> bool
    ensures { result ≡ ((first == 42) && (second == 47)) }
{
    first == b'*' && second == b'/'
}

/// How many bytes stand up to and with the first `*/`.
fn comment_end(bytes: &[u8]) -> Option<usize>
    ensures value { result ≡ comment_end bytes.now }
    ensures within { IfSome result (λ n. n ≤ length bytes.now) }
{
    let mut place = 0;
    while place + 1 < bytes.len() {
        if ends_comment(bytes[place], bytes[place + 1]) {
            return Some(place + 2);
        }
        place += 1;
    }
    None
}

/// A comment, by what stands behind its `/**`.
fn commented(inside: &[u8]) -> Piece
    ensures { result ≡ commented (comment_end inside.now) }
{
    match comment_end(inside) {
        Some(length) => Piece::Blank(3 + length),
        None => Piece::Fault(UNCLOSED_COMMENT, 0),
    }
}

/// A comment between `/**` and `*/`, or an operator, by what stands behind a `/`.
pub(crate) fn slashed(rest: &str, behind: &[u8]) -> Piece
    ensures { result ≡ slashed rest.now behind.now }
{
    match behind {
        [] => operator_at(rest),
        [_] => operator_at(rest),
        [first, second, inside @ ..] => {
            if *first == b'*' && *second == b'*' {
                commented(inside)
            } else {
                operator_at(rest)
            }
        }
    }
}
