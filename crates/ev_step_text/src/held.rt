//! Values that a vat holds, written as its lines show them, with nothing kept between.

ghost use Rattle.std.specs.Prelude.{◌≡◌, ◌++◌, ◌∷◌, OnOk, flat_map, map, string_bytes};
ghost use Rattle.def_event.specs.Lines.{value, values};
ghost use Rattle.def_text.specs.Quoting.{shortened};
ghost use Rattle.ev_step_lines.specs.Lines.{all_held, problem_at, shown_capture, shown_held, text_at};

use ev_base::{Str, TextId, Value};
use ev_event::names::{push_name, push_numbered};
use ev_event::values::{push_bracketed, push_integer, push_problem};
use ev_heap::{Capture, Held};
use ev_step_lines::Teller;
use ev_text::{push_quoted_character, push_shortened};
use std::alloc::AllocError;

/// A text of the heap, and the empty text where the heap has none of that number.
fn text_at<'t>(teller: &'t Teller<'_>, id: TextId) -> &'t str
    ensures { result.now ≡ text_at teller.now id }
{
    match teller.heap.find_text(id) {
        None => "",
        Some(text) => text,
    }
}

/// Appends a text of the heap as a line shows it.
fn push_text(teller: &Teller<'_>, id: TextId, out: &mut String) -> Result<(), AllocError>
    ensures { OnOk result (string_bytes out.new ≡ string_bytes out.old ++ shortened (text_at teller.now id)) }
{
    push_shortened(teller.alloc, out, text_at(teller, id))
}

/// Appends a value that a vat holds.
pub(crate) fn push_held(
    teller: &Teller<'_>,
    names: &[Str],
    held: Value,
    out: &mut String,
) -> Result<(), AllocError>
    ensures { OnOk result (string_bytes out.new ≡ string_bytes out.old ++ value names.now (shown_held teller.now held)) }
{
    match held {
        Value::Null => out.push_str("null"),
        Value::Bool(true) => out.push_str("true"),
        Value::Bool(false) => out.push_str("false"),
        Value::Int(number) => push_integer(out, number),
        Value::Char(letter) => push_quoted_character(out, letter),
        Value::Text(id) => push_text(teller, id, out),
        Value::Broken(id) => push_problem(teller.alloc, out, text_at(teller, id)),
        Value::List(id) => push_numbered(out, names, teller.vat(), '%', id.0),
        Value::Prim(number) => push_bracketed(out, number),
        Value::Obj(id) => push_numbered(out, names, teller.vat(), '.', id.0),
        Value::Prom(number) => push_name(out, names, &teller.table.name(number)),
        Value::Far(host, position) => {
            let object = teller.table.object(host, position);
            push_numbered(out, names, host, '.', object)
        }
    }
}

/// Appends a value behind a space.
pub(crate) fn add_held(
    teller: &Teller<'_>,
    names: &[Str],
    held: Value,
    out: &mut String,
) -> Result<(), AllocError>
    ensures { OnOk result (string_bytes out.new ≡ string_bytes out.old ++ 32 ∷ value names.now (shown_held teller.now held)) }
{
    out.push(' ')?;
    push_held(teller, names, held, out)
}

/// Appends values, each behind a space.
pub(crate) fn add_all(
    teller: &Teller<'_>,
    names: &[Str],
    all: &[Value],
    out: &mut String,
) -> Result<(), AllocError>
    ensures { OnOk result (string_bytes out.new ≡ string_bytes out.old ++ flat_map (λ v. 32 ∷ v) (values names.now (all_held teller.now all.now))) }
{
    for held in all {
        add_held(teller, names, *held, out)?;
    }
    Ok(())
}

/// Appends values that are lent, each behind a space.
pub(crate) fn add_lent(
    teller: &Teller<'_>,
    names: &[Str],
    all: &Held<'_>,
    out: &mut String,
) -> Result<(), AllocError>
    ensures { OnOk result (string_bytes out.new ≡ string_bytes out.old ++ flat_map (λ v. 32 ∷ v) (values names.now (all_held teller.now all.now))) }
{
    for place in 0..all.len() {
        add_held(teller, names, all.at(place), out)?;
    }
    Ok(())
}

/// Appends what an object holds of a name, behind a space.
fn add_capture(
    teller: &Teller<'_>,
    names: &[Str],
    capture: Capture,
    out: &mut String,
) -> Result<(), AllocError>
    ensures { OnOk result (string_bytes out.new ≡ string_bytes out.old ++ 32 ∷ value names.now (shown_capture teller.now capture)) }
{
    match capture {
        Capture::Fixed { value, guard: _ } => add_held(teller, names, value, out),
        Capture::Slot(id) => {
            out.push(' ')?;
            push_numbered(out, names, teller.vat(), '&', id.0)
        }
    }
}

/// Appends what an object holds of its names, each behind a space.
pub(crate) fn add_captures(
    teller: &Teller<'_>,
    names: &[Str],
    captures: &[Capture],
    out: &mut String,
) -> Result<(), AllocError>
    ensures { OnOk result (string_bytes out.new ≡ string_bytes out.old ++ flat_map (λ v. 32 ∷ v) (values names.now (map (shown_capture teller.now) captures.now))) }
{
    for capture in captures {
        add_capture(teller, names, *capture, out)?;
    }
    Ok(())
}

/// Appends a problem, which is a text, behind a space.
pub(crate) fn add_problem(
    teller: &Teller<'_>,
    held: Value,
    out: &mut String,
) -> Result<(), AllocError>
    ensures { OnOk result (string_bytes out.new ≡ string_bytes out.old ++ 32 ∷ shortened (problem_at teller.now held)) }
{
    out.push(' ')?;
    match held {
        Value::Text(id) => push_text(teller, id, out),
        _ => push_shortened(teller.alloc, out, ""),
    }
}
