//! The lines of the grammar: their alternatives by the first token, and what goes on behind a tree.

ghost use Rattle.std.specs.Prelude.{◌≡◌};
ghost use Rattle.def_syntax.specs.Grammar.{again, assigned, becomes, changed, form_at, more_at, tower_of};

use crate::moves::MOST_MORE;
use def_syntax::{Context, Head, Line, Place, Role, Series, Shape, Tail, TokenKind};

fn expr_form(kind: TokenKind) -> Option<Place>
    ensures { result ≡ form_at Line.Expr kind }
{
    match kind {
        TokenKind::Return => Some(Place::Leave),
        TokenKind::Break => Some(Place::Leave),
        TokenKind::Continue => Some(Place::Leave),
        TokenKind::Def => Some(Place::Def(Context::Plain)),
        TokenKind::Var => Some(Place::Var(Context::Plain)),
        _ => None,
    }
}

fn exprbeforeblock_form(kind: TokenKind) -> Option<Place>
    ensures { result ≡ form_at Line.ExprBeforeBlock kind }
{
    match kind {
        TokenKind::Return => Some(Place::Last(Line::ExprBeforeBlock, Shape::Leave)),
        TokenKind::Break => Some(Place::Last(Line::ExprBeforeBlock, Shape::Leave)),
        TokenKind::Continue => Some(Place::Last(Line::ExprBeforeBlock, Shape::Leave)),
        TokenKind::Def => Some(Place::Def(Context::BeforeBlock)),
        TokenKind::Var => Some(Place::Var(Context::BeforeBlock)),
        _ => None,
    }
}

fn prefix_form(kind: TokenKind) -> Option<Place>
    ensures { result ≡ form_at Line.Prefix kind }
{
    match kind {
        TokenKind::Minus => Some(Place::Last(Line::Prefix, Shape::Prefix)),
        TokenKind::Not => Some(Place::Last(Line::Prefix, Shape::Prefix)),
        _ => None,
    }
}

fn prim_form(kind: TokenKind) -> Option<Place>
    ensures { result ≡ form_at Line.Prim kind }
{
    match kind {
        TokenKind::Number => Some(Place::Done(Shape::Literal)),
        TokenKind::Text => Some(Place::Done(Shape::Literal)),
        TokenKind::Character => Some(Place::Done(Shape::Literal)),
        TokenKind::Identifier => Some(Place::Done(Shape::Noun)),
        TokenKind::OpenBracket => Some(Place::First(Series::Members)),
        TokenKind::OpenParen => Some(Place::Test(Head::Group)),
        TokenKind::OpenBrace => Some(Place::Block),
        TokenKind::If => Some(Place::Open(Head::If)),
        TokenKind::While => Some(Place::Open(Head::While)),
        TokenKind::For => Some(Place::For),
        TokenKind::Escape => Some(Place::Escape),
        TokenKind::Try => Some(Place::Try),
        TokenKind::When => Some(Place::Open(Head::When)),
        TokenKind::Fn => Some(Place::First(Series::FunctionParameters)),
        _ => None,
    }
}

fn block_form(kind: TokenKind) -> Option<Place>
    ensures { result ≡ form_at Line.Block kind }
{
    match kind {
        TokenKind::OpenBrace => Some(Place::Block),
        _ => None,
    }
}

fn branch_form(kind: TokenKind) -> Option<Place>
    ensures { result ≡ form_at Line.Branch kind }
{
    match kind {
        TokenKind::OpenBrace => Some(Place::Block),
        TokenKind::If => Some(Place::Open(Head::If)),
        _ => None,
    }
}

fn pattern_form(kind: TokenKind) -> Option<Place>
    ensures { result ≡ form_at Line.Pattern kind }
{
    match kind {
        TokenKind::Ignore => Some(Place::PatternGuard(Shape::AnyPattern)),
        TokenKind::Identifier => Some(Place::PatternGuard(Shape::FinalPattern)),
        TokenKind::Var => Some(Place::VarPattern),
        TokenKind::OpenBracket => Some(Place::First(Series::ListPattern)),
        TokenKind::Via => Some(Place::Open(Head::Via)),
        _ => None,
    }
}

fn otherpattern_form(kind: TokenKind) -> Option<Place>
    ensures { result ≡ form_at Line.OtherPattern kind }
{
    match kind {
        TokenKind::Var => Some(Place::VarPattern),
        TokenKind::OpenBracket => Some(Place::First(Series::ListPattern)),
        TokenKind::Via => Some(Place::Open(Head::Via)),
        _ => None,
    }
}

fn guard_form(kind: TokenKind) -> Option<Place>
    ensures { result ≡ form_at Line.Guard kind }
{
    match kind {
        TokenKind::Identifier => Some(Place::NounGuard),
        TokenKind::OpenParen => Some(Place::Test(Head::Guard)),
        _ => None,
    }
}

fn member_form(kind: TokenKind) -> Option<Place>
    ensures { result ≡ form_at Line.Member kind }
{
    match kind {
        TokenKind::To => Some(Place::MemberVerb(Role::To)),
        TokenKind::Method => Some(Place::MemberVerb(Role::Method)),
        TokenKind::Match => Some(Place::Matcher),
        _ => None,
    }
}

/// What stands behind the first token of an alternative that begins with a token of its own.
pub fn form_of(line: Line, kind: TokenKind) -> Option<Place>
    ensures { result ≡ form_at line kind }
{
    match line {
        Line::Expr => expr_form(kind),
        Line::ExprBeforeBlock => exprbeforeblock_form(kind),
        Line::Prefix => prefix_form(kind),
        Line::Prim => prim_form(kind),
        Line::Block => block_form(kind),
        Line::Branch => branch_form(kind),
        Line::Pattern => pattern_form(kind),
        Line::OtherPattern => otherpattern_form(kind),
        Line::Guard => guard_form(kind),
        Line::Member => member_form(kind),
        Line::Or => None,
        Line::And => None,
        Line::Equality => None,
        Line::Bits => None,
        Line::Relation => None,
        Line::Range => None,
        Line::Sum => None,
        Line::Product => None,
        Line::Power => None,
        Line::Postfix => None,
    }
}

/// The line that a line may be, and what may follow it there.
pub fn tower_at(line: Line) -> Option<(Line, Tail)>
    ensures { result ≡ tower_of line }
{
    match line {
        Line::Expr => Some((Line::Or, Tail::Becomes)),
        Line::ExprBeforeBlock => Some((Line::Or, Tail::BecomesBeforeBlock)),
        Line::Or => Some((Line::And, Tail::Ors)),
        Line::And => Some((Line::Equality, Tail::Ands)),
        Line::Equality => Some((Line::Bits, Tail::Equality)),
        Line::Bits => Some((Line::Relation, Tail::Bits)),
        Line::Relation => Some((Line::Range, Tail::Relation)),
        Line::Range => Some((Line::Sum, Tail::Range)),
        Line::Sum => Some((Line::Product, Tail::Sums)),
        Line::Product => Some((Line::Power, Tail::Products)),
        Line::Power => Some((Line::Prefix, Tail::Power)),
        Line::Prefix => Some((Line::Postfix, Tail::Nothing)),
        Line::Postfix => Some((Line::Prim, Tail::Suffixes)),
        Line::Prim => None,
        Line::Block => None,
        Line::Branch => None,
        Line::Pattern => None,
        Line::OtherPattern => None,
        Line::Guard => None,
        Line::Member => None,
    }
}

fn assigned_at(line: Line, shape: Shape) -> Option<Place>
    ensures { result ≡ assigned line shape }
{
    match shape {
        Shape::Noun => Some(Place::Last(line, Shape::Assign)),
        Shape::Index => Some(Place::Last(line, Shape::AssignIndex)),
        _ => None,
    }
}

fn changed_at(line: Line, shape: Shape) -> Option<Place>
    ensures { result ≡ changed line shape }
{
    match shape {
        Shape::Noun => Some(Place::Last(line, Shape::Assign)),
        _ => None,
    }
}

fn becomes_at(line: Line, shape: Shape, kind: TokenKind) -> Option<Place>
    ensures { result ≡ becomes line shape kind }
{
    match kind {
        TokenKind::Assign => assigned_at(line, shape),
        TokenKind::AddAssign => changed_at(line, shape),
        TokenKind::SubtractAssign => changed_at(line, shape),
        TokenKind::MultiplyAssign => changed_at(line, shape),
        TokenKind::FloorDivideAssign => changed_at(line, shape),
        TokenKind::RemainderAssign => changed_at(line, shape),
        TokenKind::ModAssign => changed_at(line, shape),
        TokenKind::PowAssign => changed_at(line, shape),
        TokenKind::AndAssign => changed_at(line, shape),
        TokenKind::OrAssign => changed_at(line, shape),
        TokenKind::XorAssign => changed_at(line, shape),
        _ => None,
    }
}

fn ors_more(shape: Shape, kind: TokenKind) -> Option<Place>
    ensures { result ≡ more_at Tail.Ors shape kind }
{
    let _ = shape;
    match kind {
        TokenKind::LogicalOr => Some(Place::Last(Line::And, Shape::Binary)),
        _ => None,
    }
}

fn ands_more(shape: Shape, kind: TokenKind) -> Option<Place>
    ensures { result ≡ more_at Tail.Ands shape kind }
{
    let _ = shape;
    match kind {
        TokenKind::LogicalAnd => Some(Place::Last(Line::Equality, Shape::Binary)),
        _ => None,
    }
}

fn equality_more(shape: Shape, kind: TokenKind) -> Option<Place>
    ensures { result ≡ more_at Tail.Equality shape kind }
{
    let _ = shape;
    match kind {
        TokenKind::Same => Some(Place::Last(Line::Bits, Shape::Binary)),
        TokenKind::NotSame => Some(Place::Last(Line::Bits, Shape::Binary)),
        TokenKind::Matches => Some(Place::Last(Line::Pattern, Shape::MatchBind)),
        _ => None,
    }
}

fn bits_more(shape: Shape, kind: TokenKind) -> Option<Place>
    ensures { result ≡ more_at Tail.Bits shape kind }
{
    let _ = shape;
    match kind {
        TokenKind::And => Some(Place::Last(Line::Relation, Shape::Binary)),
        TokenKind::Or => Some(Place::Last(Line::Relation, Shape::Binary)),
        TokenKind::Xor => Some(Place::Last(Line::Relation, Shape::Binary)),
        _ => None,
    }
}

fn relation_more(shape: Shape, kind: TokenKind) -> Option<Place>
    ensures { result ≡ more_at Tail.Relation shape kind }
{
    let _ = shape;
    match kind {
        TokenKind::Less => Some(Place::Last(Line::Range, Shape::Binary)),
        TokenKind::AtMost => Some(Place::Last(Line::Range, Shape::Binary)),
        TokenKind::AsBigAs => Some(Place::Last(Line::Range, Shape::Binary)),
        TokenKind::AtLeast => Some(Place::Last(Line::Range, Shape::Binary)),
        TokenKind::Greater => Some(Place::Last(Line::Range, Shape::Binary)),
        _ => None,
    }
}

fn range_more(shape: Shape, kind: TokenKind) -> Option<Place>
    ensures { result ≡ more_at Tail.Range shape kind }
{
    let _ = shape;
    match kind {
        TokenKind::Through => Some(Place::Last(Line::Sum, Shape::Binary)),
        TokenKind::Till => Some(Place::Last(Line::Sum, Shape::Binary)),
        _ => None,
    }
}

fn sums_more(shape: Shape, kind: TokenKind) -> Option<Place>
    ensures { result ≡ more_at Tail.Sums shape kind }
{
    let _ = shape;
    match kind {
        TokenKind::Plus => Some(Place::Last(Line::Product, Shape::Binary)),
        TokenKind::Minus => Some(Place::Last(Line::Product, Shape::Binary)),
        _ => None,
    }
}

fn products_more(shape: Shape, kind: TokenKind) -> Option<Place>
    ensures { result ≡ more_at Tail.Products shape kind }
{
    let _ = shape;
    match kind {
        TokenKind::Times => Some(Place::Last(Line::Power, Shape::Binary)),
        TokenKind::FloorDivide => Some(Place::Last(Line::Power, Shape::Binary)),
        TokenKind::Remainder => Some(Place::Last(Line::Power, Shape::Binary)),
        TokenKind::Mod => Some(Place::Last(Line::Power, Shape::Binary)),
        _ => None,
    }
}

fn power_more(shape: Shape, kind: TokenKind) -> Option<Place>
    ensures { result ≡ more_at Tail.Power shape kind }
{
    let _ = shape;
    match kind {
        TokenKind::Pow => Some(Place::Last(Line::Prefix, Shape::Binary)),
        _ => None,
    }
}

fn suffixes_more(shape: Shape, kind: TokenKind) -> Option<Place>
    ensures { result ≡ more_at Tail.Suffixes shape kind }
{
    let _ = shape;
    match kind {
        TokenKind::OpenParen => Some(Place::First(Series::Arguments)),
        TokenKind::OpenBracket => Some(Place::Item(MOST_MORE, Series::Index)),
        TokenKind::Dot => Some(Place::Verb),
        TokenKind::Send => Some(Place::Send),
        _ => None,
    }
}

/// What goes on behind a tree of this shape, by the next token.
pub fn more_of(tail: Tail, shape: Shape, kind: TokenKind) -> Option<Place>
    ensures { result ≡ more_at tail shape kind }
{
    match tail {
        Tail::Becomes => becomes_at(Line::Expr, shape, kind),
        Tail::BecomesBeforeBlock => becomes_at(Line::ExprBeforeBlock, shape, kind),
        Tail::Ors => ors_more(shape, kind),
        Tail::Ands => ands_more(shape, kind),
        Tail::Equality => equality_more(shape, kind),
        Tail::Bits => bits_more(shape, kind),
        Tail::Relation => relation_more(shape, kind),
        Tail::Range => range_more(shape, kind),
        Tail::Sums => sums_more(shape, kind),
        Tail::Products => products_more(shape, kind),
        Tail::Power => power_more(shape, kind),
        Tail::Suffixes => suffixes_more(shape, kind),
        Tail::Nothing => None,
    }
}

/// The tail behind a tree with one more part.
pub fn once_more(tail: Tail) -> Tail
    ensures { result ≡ again tail }
{
    match tail {
        Tail::Ors => Tail::Ors,
        Tail::Ands => Tail::Ands,
        Tail::Bits => Tail::Bits,
        Tail::Sums => Tail::Sums,
        Tail::Products => Tail::Products,
        Tail::Suffixes => Tail::Suffixes,
        _ => Tail::Nothing,
    }
}
