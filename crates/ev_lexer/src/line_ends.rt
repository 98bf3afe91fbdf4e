//! Which line ends are tokens.

ghost use Rattle.std.specs.Prelude.{◌≡◌, ◌&&◌, ◌||◌, IfOk, OnOk, reverse, false, []};
ghost use Rattle.ev_lexer.specs.LineEnds.{is_inside, is_line_end, joins, kept, opened};

use def_syntax::{Token, TokenKind};
use ev_base::Memory;
use std::alloc::Global;

/// Whether the token is a line end.
fn is_line_end(kind: TokenKind) -> bool
    ensures { result ≡ is_line_end kind }
{
    matches!(kind, TokenKind::LineEnd)
}

/// Whether a line end behind a token of this kind is dropped.
fn joins(kind: TokenKind) -> bool
    ensures { result ≡ joins kind }
{
    matches!(
        kind,
        TokenKind::Assign
            | TokenKind::AddAssign
            | TokenKind::SubtractAssign
            | TokenKind::MultiplyAssign
            | TokenKind::FloorDivideAssign
            | TokenKind::RemainderAssign
            | TokenKind::ModAssign
            | TokenKind::PowAssign
            | TokenKind::AndAssign
            | TokenKind::OrAssign
            | TokenKind::XorAssign
            | TokenKind::LogicalAnd
            | TokenKind::LogicalOr
            | TokenKind::Same
            | TokenKind::NotSame
            | TokenKind::Matches
            | TokenKind::AsBigAs
            | TokenKind::AtMost
            | TokenKind::AtLeast
            | TokenKind::Send
            | TokenKind::Arrow
            | TokenKind::FatArrow
            | TokenKind::Till
            | TokenKind::Through
            | TokenKind::Pow
            | TokenKind::FloorDivide
            | TokenKind::Mod
            | TokenKind::Plus
            | TokenKind::Minus
            | TokenKind::Times
            | TokenKind::Remainder
            | TokenKind::Less
            | TokenKind::Greater
            | TokenKind::And
            | TokenKind::Or
            | TokenKind::Xor
            | TokenKind::Dot
            | TokenKind::Comma
    )
}

/// Keeps account of the open brackets, the innermost last: for each whether line ends are dropped in it.
fn pass_bracket(brackets: &mut Vec<bool>, kind: TokenKind) -> Result<(), Memory>
    ensures { OnOk result (reverse brackets.new.items ≡ opened kind (reverse brackets.old.items)) }
{
    match kind {
        TokenKind::OpenParen | TokenKind::OpenBracket => brackets.push(true)?,
        TokenKind::OpenBrace => brackets.push(false)?,
        TokenKind::CloseParen | TokenKind::CloseBracket | TokenKind::CloseBrace => {
            let _ = brackets.pop();
        }
        _ => {}
    }
    Ok(())
}

/// Whether line ends are dropped in the innermost open bracket.
fn is_inside(brackets: &[bool]) -> bool
    ensures { result ≡ is_inside (reverse brackets.now) }
{
    match brackets.last() {
        Some(inner) => *inner,
        None => false,
    }
}

/// Whether a token is a line end that is none.
fn is_dropped(kind: TokenKind, brackets: &[bool], joined: bool) -> bool
    ensures { result ≡ (is_line_end kind && (is_inside (reverse brackets.now) || joined)) }
{
    is_line_end(kind) && (is_inside(brackets) || joined)
}

/// The tokens of a text without the line ends that are none: those behind a token that goes on, and those whose innermost
/// open bracket is `(` or `[`. Each token is looked at once.
#[tactic(auto, using(crate::proofs::Keeping::goes_dropped))]
pub fn drop_line_ends(alloc: Global, tokens: &[Token]) -> Result<Vec<Token>, Memory>
    ensures { IfOk result (λ left. left.items ≡ kept [] false tokens.now) }
{
    let mut left = Vec::new(alloc);
    let mut brackets = Vec::new(alloc);
    let mut joined = false;
    for token in tokens {
        if is_dropped(token.kind, &brackets, joined) {
            continue;
        }
        pass_bracket(&mut brackets, token.kind)?;
        joined = joins(token.kind);
        left.push(*token)?;
    }
    Ok(left)
}
