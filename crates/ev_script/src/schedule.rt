//! Drains written out, and the order of cuts and notices.

ghost use Rattle.std.specs.Prelude.{◌≡◌, ◌<◌, ◌++◌, ◌∷◌, [], ℕ, IfOk, MatchOption, OnOk, length, map, nat_le};
ghost use Rattle.std.specs.List.{flat_map, list_any, range_with_len, repeat};
ghost use Rattle.ev_script.specs.Schedule.{are_in_order, carries_from, carry_to, cuts, is_pair, may_follow, round, written, written_out};
ghost use Rattle.ev_script.specs.Script.{Reads, most_entries, write_out};

use crate::entries::Step;
use crate::script::{Entry, ScriptFault};
use ev_base::{Memory, Seq, VatId};
use std::alloc::Global;

/// The most entries of a schedule.
const MOST_ENTRIES: u64 = 100_000;

/// Appends a turn of each vat.
fn push_turns(out: &mut Vec<Entry>, vats: u8) -> Result<(), Memory>
    ensures { OnOk result (out.new.items ≡ out.old.items ++ map Entry.Turn (range_with_len 0 vats)) }
{
    for vat in 0..vats {
        out.push(Entry::Turn(VatId(vat)))?;
    }
    Ok(())
}

/// Appends the carry from a vat to another, and nothing where both are one vat.
fn push_carry(out: &mut Vec<Entry>, from: u8, to: u8) -> Result<(), Memory>
    ensures { OnOk result (out.new.items ≡ out.old.items ++ carry_to from to) }
{
    if to != from {
        out.push(Entry::Carry(VatId(from), VatId(to)))?;
    }
    Ok(())
}

/// Appends the carries from a vat to each other vat.
fn push_carries_from(out: &mut Vec<Entry>, vats: u8, from: u8) -> Result<(), Memory>
    ensures { OnOk result (out.new.items ≡ out.old.items ++ carries_from (range_with_len 0 vats) from) }
{
    for to in 0..vats {
        push_carry(out, from, to)?;
    }
    Ok(())
}

/// Appends a carry for each ordered pair.
fn push_carries(out: &mut Vec<Entry>, vats: u8) -> Result<(), Memory>
    ensures { OnOk result (out.new.items ≡ out.old.items ++ flat_map (carries_from (range_with_len 0 vats)) (range_with_len 0 vats)) }
{
    for from in 0..vats {
        push_carries_from(out, vats, from)?;
    }
    Ok(())
}

/// One round of a drain over so many vats.
pub fn round_of(alloc: Global, vats: u8) -> Result<Vec<Entry>, Memory>
    ensures { IfOk result (λ entries. entries.items ≡ round vats) }
{
    let mut entries = Vec::new(alloc);
    push_turns(&mut entries, vats)?;
    push_carries(&mut entries, vats)?;
    Ok(entries)
}

/// How many entries a step is, and none where they are more than a `u64` counts.
pub fn size_of(round: &[Entry], step: Step) -> Option<u64>
    ensures { MatchOption result (most_entries < length (written round.now step)) (λ size. size ≡ length (written round.now step)) }
{
    match step {
        Step::Rounds(rounds) => u64::from(rounds).checked_mul(round.len() as u64),
        _ => Some(1),
    }
}

/// Whether the steps are few enough, which is told without writing them out.
fn are_few(round: &[Entry], steps: &[Step]) -> bool
    ensures { result ≡ nat_le (length (written_out round.now steps.now)) most_entries }
{
    let mut left = MOST_ENTRIES;
    for step in steps {
        let Some(size) = size_of(round, *step) else {
            return false;
        };
        if size > left {
            return false;
        }
        left -= size;
    }
    true
}

/// Appends so many rounds. Rounds over no vats are nothing.
fn push_rounds(out: &mut Vec<Entry>, round: &[Entry], rounds: u32) -> Result<(), Memory>
    ensures { OnOk result (out.new.items ≡ out.old.items ++ repeat rounds round.now) }
{
    if round.is_empty() {
        return Ok(());
    }
    let mut left = rounds;
    while left > 0 {
        out.extend_from_slice(round)?;
        left -= 1;
    }
    Ok(())
}

/// Appends the entries of a step.
pub fn push_step(out: &mut Vec<Entry>, round: &[Entry], step: Step) -> Result<(), Memory>
    ensures { OnOk result (out.new.items ≡ out.old.items ++ written round.now step) }
{
    match step {
        Step::Turn(vat) => out.push(Entry::Turn(vat))?,
        Step::Carry(from, to) => out.push(Entry::Carry(from, to))?,
        Step::Cut(from, to) => out.push(Entry::Cut(from, to))?,
        Step::Notice(from, to) => out.push(Entry::Notice(from, to))?,
        Step::Rounds(rounds) => push_rounds(out, round, rounds)?,
    }
    Ok(())
}

/// Appends the entries of the steps.
fn push_steps(out: &mut Vec<Entry>, round: &[Entry], steps: &[Step]) -> Result<(), Memory>
    ensures { OnOk result (out.new.items ≡ out.old.items ++ written_out round.now steps.now) }
{
    for step in steps {
        push_step(out, round, *step)?;
    }
    Ok(())
}

/// The entries of the steps, each drain as so many rounds.
#[tactic(auto, unfolding(crate::specs::Script::write_out))]
pub(crate) fn write_out(
    alloc: Global,
    round: &[Entry],
    steps: &[Step],
) -> Result<Seq<Entry>, ScriptFault>
    ensures { Reads result (write_out round.now steps.now) }
{
    if !are_few(round, steps) {
        return Err(ScriptFault::Rule(11));
    }
    let mut entries = Vec::new(alloc);
    push_steps(&mut entries, round, steps)?;
    Ok(Seq::of(entries))
}

/// Whether the entry cuts the link of the two vats.
fn cuts(from: VatId, to: VatId, entry: Entry) -> bool
    ensures { result ≡ cuts from to entry }
{
    match entry {
        Entry::Cut(a, b) => (from == a && to == b) || (from == b && to == a),
        _ => false,
    }
}

/// Whether one of the entries cuts the link of the two vats.
fn is_cut(entries: &[Entry], from: VatId, to: VatId) -> bool
    ensures { result ≡ list_any (cuts from to) entries.now }
{
    entries.iter().any(|entry| cuts(from, to, *entry))
}

/// Whether an entry may stand behind these.
fn may_follow(before: &[Entry], entry: Entry) -> bool
    ensures { result ≡ may_follow before.now entry }
{
    match entry {
        Entry::Notice(from, to) => is_cut(before, from, to),
        _ => true,
    }
}

/// Keeps a first cut of two vats, so that what is kept cuts what was cut so far. There are few pairs of vats, so few are
/// kept.
fn note_cut(kept: &mut Vec<Entry>, entry: Entry) -> Result<(), Memory>
    ensures { OnOk result ((v w : ℕ) → list_any (cuts v w) kept.new.items ≡ list_any (cuts v w) (kept.old.items ++ entry ∷ [])) }
{
    if let Entry::Cut(from, to) = entry {
        if !is_cut(kept.as_slice(), from, to) {
            kept.push(entry)?;
        }
    }
    Ok(())
}

/// Whether before each notice stands a cut of the same two vats.
pub fn are_in_order(alloc: Global, entries: &[Entry]) -> Result<bool, Memory>
    ensures { IfOk result (λ ordered. ordered ≡ are_in_order [] entries.now) }
{
    let mut kept = Vec::new(alloc);
    for entry in entries {
        if may_follow(kept.as_slice(), *entry) {
            note_cut(&mut kept, *entry)?;
        } else {
            return Ok(false);
        }
    }
    Ok(true)
}
