//! How low a node can be that is read at a place.

ghost use Rattle.std.specs.Prelude.{◌≡◌, ◌≤◌};
ghost use Rattle.def_syntax.specs.Heights.{base, behind_need, closing_need, lift, low, lowest_of, need, weight};
ghost use Rattle.ev_parse_table.specs.Table.{capped};

use def_syntax::{Head, Line, Place, Series, Shape};

/// What a node of this shape adds to the height of its parts.
pub fn weight_of(shape: Shape) -> u8
    ensures gives { result ≡ weight shape }
    ensures small { result ≤ 1 }
{
    match shape {
        Shape::Program => 0,
        _ => 1,
    }
}

/// What the node that is read at a place adds to the height of its parts.
pub fn base_of(place: Place) -> u8
    ensures gives { result ≡ base place }
    ensures small { result ≤ 1 }
{
    match place {
        Place::Program => 0,
        Place::ProgramMore => 0,
        Place::Done(shape) => weight_of(shape),
        Place::Last(_, shape) => weight_of(shape),
        Place::PatternGuard(shape) => weight_of(shape),
        _ => 1,
    }
}

fn lowest_of(line: Line) -> u8
    ensures gives { result ≡ lowest_of line }
    ensures small { result ≤ 2 }
{
    match line {
        Line::Member => 2,
        _ => 1,
    }
}

fn closing_need(series: Series) -> u8
    ensures gives { result ≡ closing_need series }
    ensures small { result ≤ 2 }
{
    match series {
        Series::Parameters => 1,
        Series::FunctionParameters => 1,
        Series::ToParameters => 1,
        Series::MethodParameters => 1,
        _ => 0,
    }
}

fn behind_need(head: Head) -> u8
    ensures gives { result ≡ behind_need head }
    ensures small { result ≤ 2 }
{
    match head {
        Head::Group => 0,
        Head::Guard => 0,
        _ => 1,
    }
}

/// The least height of the parts to come.
pub fn need_of(place: Place) -> u8
    ensures gives { result ≡ need place }
    ensures small { result ≤ 2 }
{
    match place {
        Place::Done(_) => 0,
        Place::Last(line, _) => lowest_of(line),
        Place::Program => 0,
        Place::ProgramMore => 0,
        Place::Block => 0,
        Place::BlockMore => 0,
        Place::Leave => 0,
        Place::First(series) => closing_need(series),
        Place::More(_, series) => closing_need(series),
        Place::Close(head) => behind_need(head),
        Place::IfElse => 0,
        Place::Caught(_) => 0,
        Place::TryMore => 0,
        Place::Verb => 0,
        Place::VerbOpen => 0,
        Place::Send => 0,
        Place::SendOpen => 0,
        Place::Def(_) => 0,
        Place::Name(_, _) => 0,
        Place::NameGuard(_, _) => 2,
        Place::AuditorMore => 0,
        Place::Script => 0,
        Place::PatternGuard(_) => 0,
        Place::VarPattern => 0,
        Place::NounGuard => 0,
        _ => 1,
    }
}

/// Whether the parts so far have to be parts of a part: 1, or else 0.
pub fn lift_of(place: Place) -> u8
    ensures gives { result ≡ lift place }
    ensures small { result ≤ 1 }
{
    match place {
        Place::NameGuard(_, _) => 1,
        Place::NameGuarded(_, _) => 1,
        _ => 0,
    }
}

/// The least height of the node that is read at a place, with parts of this height so far; or 61 where that is more.
pub fn low_at(place: Place, tallest: u8) -> u8
    ensures { result ≡ capped (low place tallest) }
{
    let base = base_of(place);
    let lift = lift_of(place);
    let need = need_of(place);
    (base + (tallest.min(61) + lift).max(need)).min(61)
}
