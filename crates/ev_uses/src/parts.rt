//! The names and lists in values, lists in lists of notes taken apart.

ghost use Rattle.std.specs.Prelude.{◌≡◌, ◌+◌, ◌<◌, IfOk, MatchOption, OnOk};
ghost use Rattle.def_event.specs.declared.shown.Shown.{Members};
ghost use Rattle.def_event.specs.Uses.{all_parts, parts};
ghost use Rattle.ev_event.specs.Pending.{open_weight, weights};
ghost use Rattle.ev_uses.specs.Left.{Leaves};
ghost use Rattle.ev_uses.specs.Lines.{AddsThings};

use def_event::Shown;
use ev_base::Memory;
use ev_links::{Labels, list_label, name_label};
use std::alloc::Global;

/// Adds what a value is. Of a list in a note it hands out the members, and adds nothing.
#[tactic(auto, using(crate::proofs::Adding::none_added))]
fn begin_value<'a>(labels: &mut Labels, value: &'a Shown) -> Result<Option<&'a [Shown]>, Memory>
    ensures { IfOk result (λ begun. MatchOption begun
        (AddsThings (parts value.now) labels.old labels.new)
        (λ members. (labels.new ≡ labels.old) × (value.now ≡ Members members.now))) }
{
    match value {
        Shown::Name(name) => {
            labels.add(name_label(name))?;
            Ok(None)
        }
        Shown::List(vat, number) => {
            labels.add(list_label(vat, *number))?;
            Ok(None)
        }
        Shown::Members(members) => Ok(Some(members.as_slice())),
        _ => Ok(None),
    }
}

/// Adds the names and lists in the first of some values, and leaves those behind it to be added.
fn add_first<'a>(
    labels: &mut Labels,
    lists: &mut Vec<&'a [Shown]>,
    values: &'a [Shown],
) -> Result<(), Memory>
    ensures left { OnOk result (Leaves values.now labels.old lists.old.items labels.new lists.new.items) }
    ensures less { OnOk result (open_weight lists.new.items < weights values.now + 1 + open_weight lists.old.items) }
{
    let Some((first, more)) = values.split_first() else {
        return Ok(());
    };
    lists.push(more)?;
    let Some(members) = begin_value(labels, first)? else {
        return Ok(());
    };
    lists.push(members)?;
    Ok(())
}

/// Adds the names and lists in values. Lists in lists are kept on a stack of their own.
pub fn add_values(alloc: Global, labels: &mut Labels, values: &[Shown]) -> Result<(), Memory>
    ensures { OnOk result (AddsThings (all_parts values.now) labels.old labels.new) }
{
    let mut lists: Vec<&[Shown]> = Vec::new(alloc);
    lists.push(values)?;
    while let Some(rest) = lists.pop() {
        add_first(labels, &mut lists, rest)?;
    }
    Ok(())
}

/// Adds the names and lists in a value.
pub fn add_value(alloc: Global, labels: &mut Labels, value: &Shown) -> Result<(), Memory>
    ensures { OnOk result (AddsThings (parts value.now) labels.old labels.new) }
{
    let Some(members) = begin_value(labels, value)? else {
        return Ok(());
    };
    add_values(alloc, labels, members)
}
