//! The lanes of a diagram: a vat each.

ghost use Rattle.std.specs.Prelude.{◌≡◌, ◌++◌, bytes_eq, flat_map, IfOk, OnOk, string_bytes};
ghost use Rattle.std.specs.List.{list_any};
ghost use Rattle.def_draw.specs.Diagram.{alias, lanes_of, participant, place_of, vats_of, with_lane, with_lanes};

use crate::labels::push_escaped;
use def_see::Line;
use ev_base::{Memory, Seq, Str};
use ev_see_words::is_entry;
use ev_see_words::kinds::{has, word};
use std::alloc::Global;

/// The vats of which a line says something.
#[tactic(auto, unfolding(def_draw::specs::Diagram::vats_of))]
fn vats_of(alloc: Global, words: &[Str]) -> Result<Seq<Str>, Memory>
    ensures { IfOk result (λ vats. vats ≡ vats_of words.now) }
{
    let mut vats = Seq::new(alloc);
    if has(words, 0, "open") {
        vats.push(Str::copy_of(alloc, word(words, 1))?)?;
    } else if is_entry(words, "turn") {
        vats.push(Str::copy_of(alloc, word(words, 2))?)?;
    } else if is_entry(words, "carry") || is_entry(words, "cut") || is_entry(words, "notice") {
        vats.push(Str::copy_of(alloc, word(words, 2))?)?;
        vats.push(Str::copy_of(alloc, word(words, 3))?)?;
    } else if has(words, 0, "left") && has(words, 1, "link") {
        vats.push(Str::copy_of(alloc, word(words, 2))?)?;
        vats.push(Str::copy_of(alloc, word(words, 3))?)?;
    } else if has(words, 0, "left") {
        vats.push(Str::copy_of(alloc, word(words, 2))?)?;
    }
    Ok(vats)
}

/// Whether a vat has a lane.
fn has_lane(lanes: &[Str], vat: &str) -> bool
    ensures { result ≡ list_any (bytes_eq vat.now) lanes.now }
{
    lanes.iter().any(|lane| vat == lane.as_str())
}

/// Adds a lane for a vat that has none.
#[tactic(auto, unfolding(def_draw::specs::Diagram::with_lane))]
fn add_lane(alloc: Global, lanes: &mut Seq<Str>, vat: &str) -> Result<(), Memory>
    ensures { OnOk result (lanes.new ≡ with_lane lanes.old vat.now) }
{
    if has_lane(lanes.as_slice(), vat) {
        return Ok(());
    }
    lanes.push(Str::copy_of(alloc, vat)?)
}

/// Adds lanes for those vats that have none.
fn add_lanes(alloc: Global, lanes: &mut Seq<Str>, vats: &[Str]) -> Result<(), Memory>
    ensures { OnOk result (lanes.new ≡ with_lanes lanes.old vats.now) }
{
    for vat in vats {
        add_lane(alloc, lanes, vat.as_str())?;
    }
    Ok(())
}

/// The lanes of a history: each vat of which a line says something, in the order of these lines.
pub fn lanes_of(alloc: Global, lines: &[Line]) -> Result<Seq<Str>, Memory>
    ensures { IfOk result (λ lanes. lanes ≡ lanes_of lines.now) }
{
    let mut lanes = Seq::new(alloc);
    for line in lines {
        let vats = vats_of(alloc, line.words.as_slice())?;
        add_lanes(alloc, &mut lanes, vats.as_slice())?;
    }
    Ok(lanes)
}

/// The place of the lane of a vat, and how many there are where it has none.
fn place_of(lanes: &[Str], vat: &str) -> usize
    ensures { result ≡ place_of vat.now lanes.now }
{
    for (place, lane) in lanes.iter().enumerate() {
        if vat == lane.as_str() {
            return place;
        }
    }
    lanes.len()
}

/// Appends the name that the lane of a vat has in the diagram.
#[tactic(auto, unfolding(def_draw::specs::Diagram::alias))]
pub fn push_alias(out: &mut String, lanes: &[Str], vat: &str) -> Result<(), Memory>
    ensures { OnOk result (string_bytes out.new ≡ string_bytes out.old ++ alias lanes.now vat.now) }
{
    let place = place_of(lanes, vat);
    write!(out, "v{place}")?;
    Ok(())
}

/// Appends the line that gives a vat its lane.
#[tactic(auto, unfolding(def_draw::specs::Diagram::participant))]
fn push_participant(out: &mut String, lanes: &[Str], vat: &str) -> Result<(), Memory>
    ensures { OnOk result (string_bytes out.new ≡ string_bytes out.old ++ participant lanes.now vat.now) }
{
    out.push_str("    participant ")?;
    push_alias(out, lanes, vat)?;
    out.push_str(" as ")?;
    push_escaped(out, vat)?;
    out.push_str("\n")?;
    Ok(())
}

/// Appends the lines that give each vat its lane.
pub fn push_participants(out: &mut String, lanes: &[Str]) -> Result<(), Memory>
    ensures { OnOk result (string_bytes out.new ≡ string_bytes out.old ++ flat_map (participant lanes.now) lanes.now) }
{
    for vat in lanes {
        push_participant(out, lanes, vat.as_str())?;
    }
    Ok(())
}
