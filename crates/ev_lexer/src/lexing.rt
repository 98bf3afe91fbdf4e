//! The tokens of a text.

ghost use Rattle.std.specs.Prelude.{◌<◌, ◌^◌, length};
ghost use Rattle.ev_lexer.specs.Lexed.{Answers, SplitAnswers, lexed, split};

use crate::line_ends::drop_line_ends;
use crate::pieces::{Piece, read_piece};
use def_syntax::Token;
use ev_base::{Memory, Seq};
use std::alloc::{AllocError, AllocFailed, Global};
use std::error::Error;
use std::fmt;

/// Why a text has no tokens.
#[derive(Clone, Copy, Debug)]
pub enum LexFault {
    /// The kind of the first fault, and the byte at which it stands. 1: a character that begins no token, at it. 2: an
    /// unclosed text or character, at its opening quote. 3: a bad escape, at its backslash, or a character literal that is
    /// not one character, at its opening quote. 4: a number above the greatest integer, 2^127 - 1, at its first digit.
    /// 5: an unclosed comment, at its first byte.
    At { kind: u8, offset: u64 },
    Memory,
}

impl fmt::Display for LexFault {
    ghost use Rattle.std.specs.Prelude.{Some};
    ghost use Rattle.ev_lexer.specs.Faults.{fault_text};

    ghost output = { λ fault. Some (fault_text fault) };

    fn fmt<W: fmt::Write>(&self, f: &mut fmt::Formatter<W>) -> fmt::Result {
        match self {
            LexFault::At { kind, offset } => write!(f, "fault {kind} at {offset}"),
            LexFault::Memory => write!(f, "out of memory"),
        }
    }
}

impl Error for LexFault {}

impl From<Memory> for LexFault {
    ghost use Rattle.std.specs.Prelude.{◌≡◌};
    ghost use Rattle.ev_lexer.specs.declared.lexing.LexFault.TheVariants as lex_fault;

    ghost from_gives = { λ _ e. e ≡ lex_fault.Memory };

    fn from(_error: Memory) -> LexFault {
        LexFault::Memory
    }
}

impl<T: Drop> From<AllocFailed<T>> for LexFault {
    ghost use Rattle.std.specs.Prelude.{◌≡◌};
    ghost use Rattle.ev_lexer.specs.declared.lexing.LexFault.TheVariants as lex_fault;

    ghost from_gives = { λ _ e. e ≡ lex_fault.Memory };

    fn from(_error: AllocFailed<T>) -> LexFault {
        LexFault::Memory
    }
}

/// The tokens of a text, each line end among them, or its first fault. A piece is looked at once.
fn split(alloc: Global, text: &str) -> Result<Vec<Token>, LexFault>
    requires { length text.now < 2 ^ 63 }
    ensures { SplitAnswers result (split 0 0 text.now) }
{
    let mut tokens = Vec::new(alloc);
    let mut rest = text;
    let mut place = 0u64;
    while !rest.is_empty() {
        match read_piece(rest) {
            Piece::Blank(length) => {
                place += length as u64;
                rest = &rest[length..];
            }
            Piece::Whole(kind, length) => {
                let end = place + length as u64;
                let start = place;
                tokens.push(Token { kind, start, end })?;
                place = end;
                rest = &rest[length..];
            }
            Piece::Fault(kind, behind) => {
                let offset = place + behind as u64;
                return Err(LexFault::At { kind, offset });
            }
        }
    }
    Ok(tokens)
}

/// The tokens of a text of E. White space, comments and line ends that are none are left out. The time that it takes grows
/// with the length of the text, and no faster.
pub fn lex(alloc: Global, text: &str) -> Result<Seq<Token>, LexFault>
    ensures { Answers result (lexed text.now) }
{
    let tokens = split(alloc, text)?;
    let kept = drop_line_ends(alloc, &tokens)?;
    Ok(Seq::of(kept))
}
