//! The text of verdicts.

ghost use Rattle.std.specs.Prelude.{◌≡◌, ◌++◌, ◌∷◌, IfOk, OnOk, string_bytes};
ghost use Rattle.def_event.specs.Lines.{message, value, vat};
ghost use Rattle.ev_see_verdicts.specs.Told.{about_words, fault_line, line_text, order_told, order_why, overtaken_line, point_words, reason_words, refusal_told, sent_words, shown_line, strict_told, texts, told_text, uses_told, why_line};

use crate::order::Overtaking;
use crate::uses::{Point, Unfounded};
use crate::verdicts::Verdicts;
use def_event::Shown;
use def_why::{About, Fault, Reason, Refusal};
use ev_base::{Memory, Msg, Str, VatId};
use ev_event::words::add_value;
use std::alloc::Global;
use std::fmt::Write;

/// The text of a line, counted from 1.
#[tactic(auto, using(crate::proofs::Lines::text_there, crate::proofs::Lines::no_text))]
fn line_text<'a>(lines: &[&'a str], line: u64) -> &'a str
    ensures { result.now ≡ line_text (texts lines.now) line }
{
    match lines.get(line.saturating_sub(1) as usize) {
        Some(text) => text,
        None => "",
    }
}

/// Appends the line that fails, counted from 1.
fn push_line(out: &mut String, lines: &[&str], line: u64) -> Result<(), Memory>
    ensures { OnOk result (string_bytes out.new ≡ string_bytes out.old ++ shown_line line (line_text (texts lines.now) line)) }
{
    let text = line_text(lines, line);
    write!(out, "    line {line}: {text}\n")?;
    Ok(())
}

/// Appends the name of a vat.
fn push_vat(out: &mut String, names: &[Str], id: VatId) -> Result<(), Memory>
    ensures { OnOk result (string_bytes out.new ≡ string_bytes out.old ++ vat names.now id) }
{
    let Some(name) = names.get(id.0 as usize) else {
        return Ok(());
    };
    out.push_str(name.as_str())?;
    Ok(())
}

/// Appends a message.
fn push_message(out: &mut String, names: &[Str], id: &Msg) -> Result<(), Memory>
    ensures { OnOk result (string_bytes out.new ≡ string_bytes out.old ++ message names.now id.now) }
{
    push_vat(out, names, id.sender)?;
    let number = id.number;
    write!(out, "/{number}")?;
    Ok(())
}

/// Appends the line of a message that was overtaken, and of the one that was taken too early.
fn push_pair(out: &mut String, names: &[Str], first: &Msg, taken: &Msg) -> Result<(), Memory>
    ensures { OnOk result (string_bytes out.new ≡ string_bytes out.old ++ overtaken_line names.now first.now taken.now) }
{
    out.push_str("order no ")?;
    push_message(out, names, first)?;
    out.push_str(" ")?;
    push_message(out, names, taken)?;
    out.push_str("\n")?;
    Ok(())
}

/// Appends in which line a message was sent.
fn push_sent(out: &mut String, line: u64) -> Result<(), Memory>
    ensures { OnOk result (string_bytes out.new ≡ string_bytes out.old ++ sent_words line) }
{
    write!(
        out,
        " was sent before it, in line {line}, and was not taken\n"
    )?;
    Ok(())
}

/// Appends why a message is taken too early.
fn push_order_why(out: &mut String, names: &[Str], found: &Overtaking) -> Result<(), Memory>
    ensures { OnOk result (string_bytes out.new ≡ string_bytes out.old ++ order_why names.now found.now) }
{
    out.push_str("    ")?;
    push_message(out, names, &found.first)?;
    push_sent(out, found.sent)
}

/// Appends the verdict on order.
fn push_order(
    out: &mut String,
    names: &[Str],
    lines: &[&str],
    order: Option<Overtaking>,
) -> Result<(), Memory>
    ensures { OnOk result (string_bytes out.new ≡ string_bytes out.old ++ order_told names.now (texts lines.now) order) }
{
    let Some(found) = order else {
        out.push_str("order yes\n")?;
        return Ok(());
    };
    push_pair(out, names, &found.first, &found.taken)?;
    push_line(out, lines, found.line)?;
    push_order_why(out, names, &found)
}

/// What a point of uses asks that does not hold.
#[tactic(auto, unfolding(crate::specs::Told::point_words))]
fn point_words(point: Point) -> &'static str
    ensures { result.now ≡ point_words point }
{
    match point {
        Point::Used => "it uses what its activation does not know",
        Point::GivenBack => "it gives back what is not known to who gives it",
        Point::TakenOtherwise => "it takes the message with other names than it came with",
        Point::Added => "it carries what was not in the line before of its message",
    }
}

/// Appends the verdict on uses.
fn push_uses(out: &mut String, lines: &[&str], uses: Option<Unfounded>) -> Result<(), Memory>
    ensures { OnOk result (string_bytes out.new ≡ string_bytes out.old ++ uses_told (texts lines.now) uses) }
{
    let Some(found) = uses else {
        out.push_str("uses yes\n")?;
        return Ok(());
    };
    let line = found.line;
    let why = point_words(found.point);
    write!(out, "uses no {line}\n")?;
    push_line(out, lines, line)?;
    write!(out, "    {why}\n")?;
    Ok(())
}

/// What a reason says.
#[tactic(auto, unfolding(crate::specs::Told::reason_words))]
fn reason_words(reason: Reason) -> &'static str
    ensures { result.now ≡ reason_words reason }
{
    match reason {
        Reason::TakenAgain => "it takes a message that was taken before:",
        Reason::TakenElsewhere => "it takes a message at a vat where it was not carried to:",
        Reason::SettledAgain => "a name settles again at this vat:",
        Reason::NotSent => "no line before sends the message:",
        Reason::CarriedElsewhere => "it carries a message from a vat at which it is not:",
        Reason::OtherVerb => "the message had another verb:",
        Reason::OtherData => "the message had other data:",
        Reason::SentAgain => "it sends a message that was sent before:",
        Reason::NotOfItsVat => "another vat's is not for this vat to make:",
        Reason::OtherAnswer => "the answer is that of another message:",
        Reason::MadeAgain => "it makes what was made before:",
        Reason::SlotNotMade => "no line before makes the slot:",
        Reason::SlotUnknown => "its maker does not know what the slot holds:",
        Reason::ReadOtherwise => "something else was written last to the slot:",
        Reason::CameInNoNote => "a list comes in a step that carries no note:",
        Reason::NotHanded => "no call handed this to an ejector:",
        Reason::NotItsHost => "another vat hosts the name of which it tells:",
        Reason::ToldUnsettled => "the name did not settle at its host before:",
        Reason::ToldOtherwise => "the name settled otherwise at its host:",
        Reason::SettledUntold => "nothing told this vat that the name settles so:",
    }
}

/// Appends a message behind a space.
fn push_spaced(out: &mut String, names: &[Str], id: &Msg) -> Result<(), Memory>
    ensures { OnOk result (string_bytes out.new ≡ string_bytes out.old ++ 32 ∷ message names.now id.now) }
{
    out.push(' ')?;
    push_message(out, names, id)
}

/// Appends a value behind a space.
fn push_shown(alloc: Global, out: &mut String, names: &[Str], shown: &Shown) -> Result<(), Memory>
    ensures { OnOk result (string_bytes out.new ≡ string_bytes out.old ++ 32 ∷ value names.now shown.now) }
{
    add_value(alloc, out, names, shown)?;
    Ok(())
}

/// Appends a thing behind a space.
#[tactic(auto, unfolding(crate::specs::Told::about_words))]
fn push_about(alloc: Global, out: &mut String, names: &[Str], about: &About) -> Result<(), Memory>
    ensures { OnOk result (string_bytes out.new ≡ string_bytes out.old ++ 32 ∷ about_words names.now about.now) }
{
    match about {
        About::Message(message) => push_spaced(out, names, message),
        About::Name(name) => push_shown(alloc, out, names, &Shown::Name(*name)),
        About::List(vat, number) => push_shown(alloc, out, names, &Shown::List(*vat, *number)),
        About::Slot(vat, number) => push_shown(alloc, out, names, &Shown::Slot(*vat, *number)),
    }
}

/// Appends what fails, and of what.
fn push_fault(alloc: Global, out: &mut String, names: &[Str], fault: &Fault) -> Result<(), Memory>
    ensures { OnOk result (string_bytes out.new ≡ string_bytes out.old ++ fault_line names.now fault.now) }
{
    out.push_str("    ")?;
    out.push_str(reason_words(fault.reason))?;
    push_about(alloc, out, names, &fault.about)?;
    out.push_str("\n")?;
    Ok(())
}

/// Appends a verdict by its word.
fn push_refusal(
    alloc: Global,
    out: &mut String,
    names: &[Str],
    lines: &[&str],
    word: &str,
    refusal: Option<Refusal>,
) -> Result<(), Memory>
    ensures { OnOk result (string_bytes out.new ≡ string_bytes out.old ++ refusal_told word.now names.now (texts lines.now) refusal) }
{
    let Some(found) = refusal else {
        write!(out, "{word} yes\n")?;
        return Ok(());
    };
    let line = found.line;
    write!(out, "{word} no {line}\n")?;
    push_line(out, lines, line)?;
    push_fault(alloc, out, names, &found.fault)
}

/// Appends the verdict on what is believed, where it is asked.
fn push_strict(
    alloc: Global,
    out: &mut String,
    names: &[Str],
    lines: &[&str],
    found: &Verdicts,
) -> Result<(), Memory>
    ensures { OnOk result (string_bytes out.new ≡ string_bytes out.old ++ strict_told found.now.is_strict names.now (texts lines.now) found.now.strict) }
{
    if !found.is_strict {
        return Ok(());
    }
    push_refusal(alloc, out, names, lines, "strict", found.strict)
}

/// The text of verdicts, by the names of the vats and the lines of the history.
pub fn told_text(
    alloc: Global,
    names: &[Str],
    lines: &[&str],
    found: &Verdicts,
) -> Result<String, Memory>
    ensures { IfOk result (λ text. string_bytes text ≡ told_text names.now (texts lines.now) found.now) }
{
    let mut text = String::new(alloc);
    push_order(&mut text, names, lines, found.order)?;
    push_uses(&mut text, lines, found.uses)?;
    push_refusal(alloc, &mut text, names, lines, "taken", found.taken)?;
    push_refusal(alloc, &mut text, names, lines, "settled", found.settled)?;
    push_strict(alloc, &mut text, names, lines, found)?;
    Ok(text)
}
