//! The diagram of a history.

ghost use Rattle.std.specs.Prelude.{◌≡◌, ◌++◌, [], IfOk, OnOk, string_bytes};
ghost use Rattle.def_draw.specs.Diagram.{diagram, ends, items_from};

use crate::items::push_item;
use crate::lanes::{lanes_of, push_participants};
use def_see::Line;
use ev_base::{Memory, Str};
use ev_see_words::is_entry;
use ev_see_words::kinds::word;
use std::alloc::Global;

/// Appends the items of lines, in order.
#[tactic(auto, unfolding(def_draw::specs::Diagram::ends_behind))]
fn push_items(alloc: Global, out: &mut String, lanes: &[Str], lines: &[Line]) -> Result<(), Memory>
    ensures { OnOk result (string_bytes out.new ≡ string_bytes out.old ++ items_from lanes.now (ends [] []) lines.now) }
{
    let mut from = Str::new(alloc);
    let mut to = Str::new(alloc);
    for line in lines {
        push_item(alloc, out, lanes, from.as_str(), to.as_str(), line)?;
        if is_entry(line.words.as_slice(), "cut") {
            from = Str::copy_of(alloc, word(line.words.as_slice(), 2))?;
            to = Str::copy_of(alloc, word(line.words.as_slice(), 3))?;
        }
    }
    Ok(())
}

/// The text of a sequence diagram, in Mermaid, of a history: a lane for each vat, and in the order of their lines an arrow for each carry, a
/// note for what a turn takes, a cross for what a cut loses, a note across both lanes for a cut and a notice, and what is left at the end.
/// Time grows with the lines.
#[tactic(auto, unfolding(def_draw::specs::Diagram::diagram))]
pub fn sequence_diagram(alloc: Global, lines: &[Line]) -> Result<String, Memory>
    ensures { IfOk result (λ text. string_bytes text ≡ diagram lines.now) }
{
    let lanes = lanes_of(alloc, lines)?;
    let mut text = String::from_str(alloc, "sequenceDiagram\n")?;
    push_participants(&mut text, lanes.as_slice())?;
    push_items(alloc, &mut text, lanes.as_slice(), lines)?;
    Ok(text)
}
