//! The items of a diagram: arrows, and notes over lanes.

ghost use Rattle.std.specs.Prelude.{◌≡◌, ◌++◌, drop, IfOk, OnOk, string_bytes};
ghost use Rattle.def_draw.specs.Diagram.{alias, arrow, carried, drawn, ends, item, label, left, lost, lost_in_cut, note_over, noted, noted_across, taken, words_from};
ghost use Rattle.def_see.specs.Words.{stands_before};

use crate::labels::push_escaped;
use crate::lanes::push_alias;
use def_see::Line;
use ev_base::{Memory, Seq, Str};
use ev_see_words::kinds::{has, word};
use ev_see_words::{is_act, is_entry, push_joined};
use std::alloc::Global;

/// Whether a vat sent a message, by the message's name.
#[tactic(auto, unfolding(def_see::specs::Words::stands_before))]
fn is_of(message: &str, vat: &str) -> bool
    ensures { result ≡ stands_before 47 vat.now message.now }
{
    match message.split_once('/') {
        Some((before, _)) => before == vat,
        None => false,
    }
}

/// Appends what an element says.
#[tactic(auto, unfolding(def_draw::specs::Diagram::label))]
fn push_label(out: &mut String, text: &str) -> Result<(), Memory>
    ensures { OnOk result (string_bytes out.new ≡ string_bytes out.old ++ label text.now) }
{
    out.push_str(": ")?;
    push_escaped(out, text)?;
    out.push_str("\n")?;
    Ok(())
}

/// Appends a text and the name of a lane.
fn push_front(out: &mut String, front: &str, lanes: &[Str], vat: &str) -> Result<(), Memory>
    ensures { OnOk result (string_bytes out.new ≡ string_bytes out.old ++ (front.now ++ alias lanes.now vat.now)) }
{
    out.push_str(front)?;
    push_alias(out, lanes, vat)
}

/// Appends how a note over a lane begins.
#[tactic(auto, unfolding(def_draw::specs::Diagram::note_over))]
fn push_note_over(out: &mut String, lanes: &[Str], vat: &str) -> Result<(), Memory>
    ensures { OnOk result (string_bytes out.new ≡ string_bytes out.old ++ (note_over ++ alias lanes.now vat.now)) }
{
    push_front(out, "    Note over ", lanes, vat)
}

/// Appends a text, the name of a lane, and what the element says.
fn push_element(
    out: &mut String,
    front: &str,
    lanes: &[Str],
    vat: &str,
    text: &str,
) -> Result<(), Memory>
    ensures { OnOk result (string_bytes out.new ≡ string_bytes out.old ++ (front.now ++ alias lanes.now vat.now ++ label text.now)) }
{
    out.push_str(front)?;
    push_alias(out, lanes, vat)?;
    push_label(out, text)
}

/// Appends a note over the lane of a vat.
#[tactic(auto, unfolding(def_draw::specs::Diagram::noted))]
fn push_noted(out: &mut String, lanes: &[Str], vat: &str, text: &str) -> Result<(), Memory>
    ensures { OnOk result (string_bytes out.new ≡ string_bytes out.old ++ noted lanes.now vat.now text.now) }
{
    push_note_over(out, lanes, vat)?;
    push_label(out, text)
}

/// Appends a note across the lanes of two vats.
#[tactic(auto, unfolding(def_draw::specs::Diagram::noted_across))]
fn push_noted_across(
    out: &mut String,
    lanes: &[Str],
    from: &str,
    to: &str,
    text: &str,
) -> Result<(), Memory>
    ensures { OnOk result (string_bytes out.new ≡ string_bytes out.old ++ noted_across lanes.now from.now to.now text.now) }
{
    push_note_over(out, lanes, from)?;
    push_element(out, ",", lanes, to, text)
}

/// Appends an arrow of that kind.
#[tactic(auto, unfolding(def_draw::specs::Diagram::drawn))]
fn push_drawn(
    out: &mut String,
    lanes: &[Str],
    arrow: &str,
    from: &str,
    to: &str,
    text: &str,
) -> Result<(), Memory>
    ensures { OnOk result (string_bytes out.new ≡ string_bytes out.old ++ drawn lanes.now arrow.now from.now to.now text.now) }
{
    out.push_str("    ")?;
    push_alias(out, lanes, from)?;
    out.push_str(arrow)?;
    push_alias(out, lanes, to)?;
    push_label(out, text)
}

/// The arrow of what a carry brings.
#[tactic(auto, unfolding(def_draw::specs::Diagram::arrow))]
fn arrow(words: &[Str]) -> &'static str
    ensures { result.now ≡ arrow words.now }
{
    if has(words, 4, "deliver") || has(words, 4, "deliveronly") {
        "->>"
    } else if has(words, 4, "settled") || has(words, 4, "elsewhere") {
        "-->>"
    } else if has(words, 4, "open") || has(words, 4, "ask") || has(words, 4, "shorten") {
        "--)"
    } else {
        "-)"
    }
}

/// The words of a line from a place on, behind a text.
fn words_behind(alloc: Global, front: &str, words: &[Str], place: usize) -> Result<Str, Memory>
    ensures { IfOk result (λ text. text ≡ front.now ++ words_from place words.now) }
{
    let mut text = String::new(alloc);
    text.push_str(front)?;
    push_joined(&mut text, " ", &words[words.len().min(place)..])?;
    Ok(Str::of(text))
}

/// The words of a line.
fn all_words(alloc: Global, words: &[Str]) -> Result<Str, Memory>
    ensures { IfOk result (λ text. text ≡ words_from 0 words.now) }
{
    words_behind(alloc, "", words, 0)
}

/// Appends a message that a cut loses.
#[tactic(auto, unfolding(def_draw::specs::Diagram::lost_in_cut))]
fn push_lost_in_cut(
    alloc: Global,
    out: &mut String,
    lanes: &[Str],
    from: &str,
    to: &str,
    words: &[Str],
) -> Result<(), Memory>
    ensures { OnOk result (string_bytes out.new ≡ string_bytes out.old ++ lost_in_cut lanes.now (ends from.now to.now) words.now) }
{
    let text = all_words(alloc, words)?;
    if is_of(word(words, 1), to) {
        push_drawn(out, lanes, "-x", to, from, text.as_str())
    } else {
        push_drawn(out, lanes, "-x", from, to, text.as_str())
    }
}

/// Appends a message that is lost.
#[tactic(auto, unfolding(def_draw::specs::Diagram::lost))]
fn push_lost(
    alloc: Global,
    out: &mut String,
    lanes: &[Str],
    from: &str,
    to: &str,
    line: &Line,
) -> Result<(), Memory>
    ensures { OnOk result (string_bytes out.new ≡ string_bytes out.old ++ lost lanes.now (ends from.now to.now) line.now) }
{
    let words = line.words.as_slice();
    if has(words, 2, "cut") {
        return push_lost_in_cut(alloc, out, lanes, from, to, words);
    }
    let text = all_words(alloc, words)?;
    push_noted(out, lanes, line.at.as_str(), text.as_str())
}

/// Appends what is left at the end.
#[tactic(auto, unfolding(def_draw::specs::Diagram::left))]
fn push_left(alloc: Global, out: &mut String, lanes: &[Str], words: &[Str]) -> Result<(), Memory>
    ensures { OnOk result (string_bytes out.new ≡ string_bytes out.old ++ left lanes.now words.now) }
{
    let text = all_words(alloc, words)?;
    if has(words, 1, "link") {
        push_drawn(
            out,
            lanes,
            "--x",
            word(words, 2),
            word(words, 3),
            text.as_str(),
        )
    } else {
        push_noted(out, lanes, word(words, 2), text.as_str())
    }
}

/// Appends the arrow of a carry.
#[tactic(auto, unfolding(def_draw::specs::Diagram::carried))]
fn push_carried(alloc: Global, out: &mut String, lanes: &[Str], words: &[Str]) -> Result<(), Memory>
    ensures { OnOk result (string_bytes out.new ≡ string_bytes out.old ++ carried lanes.now words.now) }
{
    let entry = word(words, 0);
    let front = format!(in alloc; "{entry} ")?;
    let text = words_behind(alloc, front.as_str(), words, 4)?;
    push_drawn(
        out,
        lanes,
        arrow(words),
        word(words, 2),
        word(words, 3),
        text.as_str(),
    )
}

/// Appends what a turn takes.
#[tactic(auto, unfolding(def_draw::specs::Diagram::taken))]
fn push_taken(alloc: Global, out: &mut String, lanes: &[Str], line: &Line) -> Result<(), Memory>
    ensures { OnOk result (string_bytes out.new ≡ string_bytes out.old ++ taken lanes.now line.now) }
{
    let step = line.label.as_str();
    let front = format!(in alloc; "{step} takes ")?;
    let text = words_behind(alloc, front.as_str(), line.words.as_slice(), 2)?;
    push_noted(out, lanes, line.at.as_str(), text.as_str())
}

/// Appends the item of a line: none but of a carry, take, lost, cut, notice or left line.
#[tactic(auto, unfolding(def_draw::specs::Diagram::item))]
pub fn push_item(
    alloc: Global,
    out: &mut String,
    lanes: &[Str],
    from: &str,
    to: &str,
    line: &Line,
) -> Result<(), Memory>
    ensures { OnOk result (string_bytes out.new ≡ string_bytes out.old ++ item lanes.now (ends from.now to.now) line.now) }
{
    let words = line.words.as_slice();
    if is_act(words, "take") {
        push_taken(alloc, out, lanes, line)
    } else if is_entry(words, "carry") {
        push_carried(alloc, out, lanes, words)
    } else if is_entry(words, "cut") || is_entry(words, "notice") {
        let text = all_words(alloc, words)?;
        push_noted_across(out, lanes, word(words, 2), word(words, 3), text.as_str())
    } else if has(words, 0, "lost") {
        push_lost(alloc, out, lanes, from, to, line)
    } else if has(words, 0, "left") {
        push_left(alloc, out, lanes, words)
    } else {
        Ok(())
    }
}
