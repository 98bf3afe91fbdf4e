//! Labels that spread from seeds over places that lead to others.

ghost use Rattle.std.specs.Prelude.{◌≡◌, ℕ, IfOk, OnOk, length, slice_get};
ghost use Rattle.ev_order.specs.Spread.{HasFirstLabels, HasLabel, IsWhole, Spreads, SpreadsSeed, gone_on, labelled, labelled_target, reached_by, reached_from, reached_target};

use ev_base::Memory;
use std::alloc::Global;

/// A place, and the two that it may lead to. A number at which there is no place leads nowhere.
#[derive(Clone, Copy)]
pub struct Place {
    pub next: Option<usize>,
    pub over: Option<usize>,
}

/// Labels a place, where it is there and has no label, and notes that it was reached.
fn label_place(
    labels: &mut [Option<usize>],
    reached: &mut Vec<usize>,
    place: usize,
    label: usize,
) -> Result<(), Memory>
    ensures labels { OnOk result (labels.new ≡ labelled place label labels.old) }
    ensures reached { OnOk result (reached.new.items ≡ reached_by place labels.old reached.old.items) }
{
    let is_free = matches!(labels.get(place), Some(None));
    if !is_free {
        return Ok(());
    }
    reached.push(place)?;
    labels[place] = Some(label);
    Ok(())
}

/// The same for a place that may be none.
fn label_target(
    labels: &mut [Option<usize>],
    reached: &mut Vec<usize>,
    target: Option<usize>,
    label: usize,
) -> Result<(), Memory>
    ensures labels { OnOk result (labels.new ≡ labelled_target target label labels.old) }
    ensures reached { OnOk result (reached.new.items ≡ reached_target target labels.old reached.old.items) }
{
    match target {
        Some(place) => label_place(labels, reached, place, label),
        None => Ok(()),
    }
}

/// Labels what the place of this number leads to in one step.
fn go_on(
    places: &[Place],
    labels: &mut [Option<usize>],
    reached: &mut Vec<usize>,
    from: usize,
    label: usize,
) -> Result<(), Memory>
    ensures labels { OnOk result (labels.new ≡ gone_on (slice_get places.now from) label labels.old) }
    ensures reached { OnOk result (reached.new.items ≡ reached_from (slice_get places.now from) label labels.old reached.old.items) }
{
    let Some(place) = places.get(from) else {
        return Ok(());
    };
    label_target(labels, reached, place.next, label)?;
    label_target(labels, reached, place.over, label)?;
    Ok(())
}

/// Labels all that a seed leads to, where it has no label. What was reached before is done with.
fn spread(
    places: &[Place],
    labels: &mut [Option<usize>],
    reached: &mut Vec<usize>,
    seed: usize,
    label: usize,
) -> Result<(), Memory>
    requires { IsWhole places.now labels.old }
    ensures { OnOk result (Spreads places.now seed label labels.old labels.new) }
{
    let mut at = reached.len();
    label_place(labels, reached, seed, label)?;
    while at < reached.len() {
        let from = reached[at];
        go_on(places, labels, reached, from, label)?;
        at += 1;
    }
    Ok(())
}

/// The same for a seed that may be none.
fn spread_seed(
    places: &[Place],
    labels: &mut [Option<usize>],
    reached: &mut Vec<usize>,
    seed: Option<usize>,
    label: usize,
) -> Result<(), Memory>
    requires { IsWhole places.now labels.old }
    ensures { OnOk result (SpreadsSeed places.now seed label labels.old labels.new) }
{
    match seed {
        Some(place) => spread(places, labels, reached, place, label),
        None => Ok(()),
    }
}

/// The same for each seed, in order.
fn spread_all(
    places: &[Place],
    labels: &mut [Option<usize>],
    reached: &mut Vec<usize>,
    seeds: &[Option<usize>],
) -> Result<(), Memory>
    requires length { length labels.old ≡ length places.now }
    requires free { (n k : ℕ) → HasLabel labels.old n k → ⊥ }
    ensures { OnOk result (HasFirstLabels places.now seeds.now labels.new) }
{
    for label in 0..seeds.len() {
        spread_seed(places, labels, reached, seeds[label], label)?;
    }
    Ok(())
}

/// The number of the first seed that leads to each place. Time grows with the places and the seeds.
pub fn first_labels(
    alloc: Global,
    places: &[Place],
    seeds: &[Option<usize>],
) -> Result<Vec<Option<usize>>, Memory>
    ensures { IfOk result (λ labels. HasFirstLabels places.now seeds.now labels.items) }
{
    let mut labels = Vec::new(alloc);
    labels.resize(places.len(), None)?;
    let mut reached = Vec::new(alloc);
    spread_all(places, &mut labels, &mut reached, seeds)?;
    Ok(labels)
}
