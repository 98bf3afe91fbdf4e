//! The move that a token begins.

ghost use Rattle.std.specs.Prelude.{◌≡◌, is_some, if◌then◌else◌};
ghost use Rattle.def_syntax.specs.Grammar.{is_stop};
ghost use Rattle.def_syntax.specs.Kinds.{same};
ghost use Rattle.def_syntax.specs.Machine.{accepts, begin, pick};
ghost use Rattle.ev_parse_table.specs.Table.{listed};

use crate::lines::{form_of, tower_at};
use def_syntax::{Line, Move, Moves, TokenKind};

/// Whether a token is a separator or a closing bracket.
pub fn is_stopping(kind: TokenKind) -> bool
    ensures { result ≡ is_stop kind }
{
    matches!(
        kind,
        TokenKind::Semicolon
            | TokenKind::LineEnd
            | TokenKind::CloseParen
            | TokenKind::CloseBracket
            | TokenKind::CloseBrace
    )
}

/// Whether two tokens are of one kind.
pub fn is_same(a: TokenKind, b: TokenKind) -> bool
    ensures { result ≡ same a b }
{
    a as u8 == b as u8
}

/// Whether a line begins with a token of this kind.
#[tactic(auto, using(crate::proofs::Tables::begins_form, crate::proofs::Tables::begins_not, crate::proofs::Tables::begins_tower))]
fn begins(line: Line, kind: TokenKind) -> bool
    ensures { result ≡ is_some (begin line kind) }
{
    match form_of(line, kind) {
        Some(_) => true,
        None => match tower_at(line) {
            None => false,
            Some((inner, _)) => begins(inner, kind),
        },
    }
}

fn is_accepted(step: Move, kind: TokenKind) -> bool
    ensures { result ≡ accepts step kind }
{
    match step {
        Move::Takes(wanted, _) => is_same(kind, wanted),
        Move::Reads(line, _) => begins(line, kind),
        Move::Wraps(wanted, _, _) => is_same(kind, wanted),
    }
}

fn pick_one(step: Move, others: Option<Move>, kind: TokenKind) -> Option<Move>
    ensures { result ≡ (if accepts step kind then Some step else others) }
{
    if is_accepted(step, kind) {
        Some(step)
    } else {
        others
    }
}

fn pick_two(first: Move, second: Move, others: Option<Move>, kind: TokenKind) -> Option<Move>
    ensures { result ≡ (if accepts first kind then Some first else if accepts second kind then Some second else others) }
{
    pick_one(first, pick_one(second, others, kind), kind)
}

fn pick_three(
    first: Move,
    second: Move,
    third: Move,
    others: Option<Move>,
    kind: TokenKind,
) -> Option<Move>
    ensures { result ≡ (if accepts first kind then Some first else if accepts second kind then Some second else if accepts third kind then Some third else others) }
{
    pick_one(first, pick_two(second, third, others, kind), kind)
}

/// The move that a token begins.
pub fn pick_move(moves: Moves, kind: TokenKind) -> Option<Move>
    ensures { result ≡ pick (listed moves) kind }
{
    match moves {
        Moves::None => None,
        Moves::One(first) => pick_one(first, None, kind),
        Moves::Two(first, second) => pick_two(first, second, None, kind),
        Moves::Three(first, second, third) => pick_three(first, second, third, None, kind),
        Moves::Four(first, second, third, fourth) => {
            pick_one(first, pick_three(second, third, fourth, None, kind), kind)
        }
        Moves::Five(first, second, third, fourth, fifth) => {
            pick_two(
                first,
                second,
                pick_three(third, fourth, fifth, None, kind),
                kind,
            )
        }
        Moves::Six(first, second, third, fourth, fifth, sixth) => {
            let others = pick_three(fourth, fifth, sixth, None, kind);
            pick_three(first, second, third, others, kind)
        }
    }
}
