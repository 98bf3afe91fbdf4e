//! What a vat holds, by its global names.

ghost use Rattle.std.specs.Prelude.{◌≡◌, IfOk, map};
ghost use Rattle.def_event.specs.declared.shown.Shown as shown_as;
ghost use Rattle.ev_step_lines.specs.Lines.{all_held, problem_at, shown_capture, shown_held, text_at};

use crate::teller::Teller;
use def_event::Shown;
use ev_base::{Memory, Name, Seq, Str, TextId, Value};
use ev_heap::{Capture, Held};

/// A copy of a text of the heap, and the empty text where the heap has none of that number.
pub fn copied(teller: &Teller<'_>, id: TextId) -> Result<Str, Memory>
    ensures { IfOk result (λ text. text ≡ text_at teller.now id) }
{
    match teller.heap.find_text(id) {
        None => Ok(Str::new(teller.alloc)),
        Some(text) => Str::copy_of(teller.alloc, text),
    }
}

/// A text of the heap, as a value.
fn shown_text(teller: &Teller<'_>, id: TextId) -> Result<Shown, Memory>
    ensures { IfOk result (λ s. s ≡ shown_as.Text (text_at teller.now id)) }
{
    let text = copied(teller, id)?;
    Ok(Shown::Text(text))
}

/// A broken reference with its problem, which is a text of the heap.
fn shown_broken(teller: &Teller<'_>, id: TextId) -> Result<Shown, Memory>
    ensures { IfOk result (λ s. s ≡ shown_as.Broken (text_at teller.now id)) }
{
    let problem = copied(teller, id)?;
    Ok(Shown::Broken(problem))
}

/// A value by its global name.
pub fn shown(teller: &Teller<'_>, value: Value) -> Result<Shown, Memory>
    ensures { IfOk result (λ s. s ≡ shown_held teller.now value) }
{
    match value {
        Value::Null => Ok(Shown::Null),
        Value::Bool(flag) => Ok(Shown::Bool(flag)),
        Value::Int(number) => Ok(Shown::Int(number)),
        Value::Char(letter) => Ok(Shown::Char(letter)),
        Value::Text(id) => shown_text(teller, id),
        Value::Broken(id) => shown_broken(teller, id),
        Value::List(id) => Ok(Shown::List(teller.vat(), id.0)),
        Value::Prim(number) => Ok(Shown::Prim(number)),
        Value::Obj(id) => Ok(Shown::Name(Name::Object(teller.vat(), id.0))),
        Value::Prom(number) => Ok(Shown::Name(teller.table.name(number))),
        Value::Far(host, position) => {
            let object = teller.table.object(host, position);
            Ok(Shown::Name(Name::Object(host, object)))
        }
    }
}

/// Values by their global names.
pub fn shown_all(teller: &Teller<'_>, values: &[Value]) -> Result<Seq<Shown>, Memory>
    ensures { IfOk result (λ all. all ≡ all_held teller.now values.now) }
{
    let mut all = Seq::new(teller.alloc);
    for value in values {
        all.push(shown(teller, *value)?)?;
    }
    Ok(all)
}

/// Values that are lent, by their global names.
pub(crate) fn held_all(teller: &Teller<'_>, values: &Held<'_>) -> Result<Seq<Shown>, Memory>
    ensures { IfOk result (λ all. all ≡ all_held teller.now values.now) }
{
    let mut all = Seq::new(teller.alloc);
    for place in 0..values.len() {
        all.push(shown(teller, values.at(place))?)?;
    }
    Ok(all)
}

/// What an object holds of a name.
fn caught(teller: &Teller<'_>, capture: Capture) -> Result<Shown, Memory>
    ensures { IfOk result (λ s. s ≡ shown_capture teller.now capture) }
{
    match capture {
        Capture::Fixed { value, guard: _ } => shown(teller, value),
        Capture::Slot(id) => Ok(Shown::Slot(teller.vat(), id.0)),
    }
}

/// What an object holds of its names.
pub(crate) fn caught_all(teller: &Teller<'_>, captures: &[Capture]) -> Result<Seq<Shown>, Memory>
    ensures { IfOk result (λ all. all ≡ map (shown_capture teller.now) captures.now) }
{
    let mut all = Seq::new(teller.alloc);
    for capture in captures {
        all.push(caught(teller, *capture)?)?;
    }
    Ok(all)
}

/// A problem, which is a text.
pub(crate) fn problem(teller: &Teller<'_>, value: Value) -> Result<Str, Memory>
    ensures { IfOk result (λ text. text ≡ problem_at teller.now value) }
{
    match value {
        Value::Text(id) => copied(teller, id),
        _ => Ok(Str::new(teller.alloc)),
    }
}
