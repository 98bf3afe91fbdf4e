//! Lines written at once, from what is kept of what happened.

ghost use Rattle.std.specs.Prelude.{◌≡◌, ◌++◌, ◌∷◌, [], OnOk, flat_map, string_bytes};
ghost use Rattle.def_event.specs.Lines.{begun_words, render, values};
ghost use Rattle.ev_heap.specs.declared.happened.Happened.TheVariants as event;
ghost use Rattle.ev_step_lines.specs.Lines.{all_held, lines};

use crate::evaluated::number;
use crate::shown::shown;
use crate::teller::Teller;
use ev_base::{ActId, Memory, Str, Value};
use ev_event::line::{add_begun, begin_call};
use ev_event::words::add_value;
use ev_heap::Held;

/// Appends values, each behind a space.
fn write_values(
    teller: &Teller<'_>,
    names: &[Str],
    args: &Held<'_>,
    out: &mut String,
) -> Result<(), Memory>
    ensures { OnOk result (string_bytes out.new ≡ string_bytes out.old ++ flat_map (λ v. 32 ∷ v) (values names.now (all_held teller.now args.now))) }
{
    for place in 0..args.len() {
        let value = shown(teller, args.at(place))?;
        add_value(teller.alloc, out, names, &value)?;
    }
    Ok(())
}

/// Appends the line of a call, with its line feed.
pub fn write_call(
    teller: &Teller<'_>,
    names: &[Str],
    activation: ActId,
    target: Value,
    verb: &str,
    args: &Held<'_>,
    begun: Option<ActId>,
    out: &mut String,
) -> Result<(), Memory>
    ensures { OnOk result (string_bytes out.new ≡ string_bytes out.old ++ render names.now (lines teller.now (event.Call activation target verb.now args.now begun))) }
{
    let target = shown(teller, target)?;
    begin_call(teller.alloc, out, names, activation.0, &target, verb)?;
    write_values(teller, names, args, out)?;
    add_begun(out, number(begun))?;
    out.push('\n')?;
    Ok(())
}
