//! The text of a judgement.

ghost use Rattle.std.specs.Prelude.{◌≡◌, ◌++◌, IfOk, OnOk, string_bytes};
ghost use Rattle.def_event.specs.Lines.{message, vat};
ghost use Rattle.ev_trace.specs.Reading.{read};
ghost use Rattle.ev_check_text.specs.Checks.{Checks, Tells, order_line, overtaken_line, uses_line};

use def_event::Trace;
use ev_base::{Memory, Msg, Str, VatId};
use ev_order::judge_order;
use ev_script::ScriptFault;
use ev_trace::read_trace;
use ev_uses::judge_uses;
use std::alloc::Global;
use std::fmt::Write;

/// Appends the name of a vat.
fn push_vat(out: &mut String, names: &[Str], id: VatId) -> Result<(), Memory>
    ensures { OnOk result (string_bytes out.new ≡ string_bytes out.old ++ vat names.now id) }
{
    let Some(name) = names.get(id.0 as usize) else {
        return Ok(());
    };
    out.push_str(name.as_str())?;
    Ok(())
}

/// Appends a message.
fn push_message(out: &mut String, names: &[Str], id: Msg) -> Result<(), Memory>
    ensures { OnOk result (string_bytes out.new ≡ string_bytes out.old ++ message names.now id) }
{
    push_vat(out, names, id.sender)?;
    let number = id.number;
    write!(out, "/{number}")?;
    Ok(())
}

/// Appends the line of a message that was overtaken, and of the one that was taken too early.
fn push_overtaken(out: &mut String, names: &[Str], overtaken: Msg, taken: Msg) -> Result<(), Memory>
    ensures { OnOk result (string_bytes out.new ≡ string_bytes out.old ++ overtaken_line names.now overtaken taken) }
{
    out.push_str("order no ")?;
    push_message(out, names, overtaken)?;
    out.push_str(" ")?;
    push_message(out, names, taken)?;
    out.push_str("\n")?;
    Ok(())
}

/// Appends the line on the order of messages.
fn push_order(out: &mut String, names: &[Str], order: Option<(Msg, Msg)>) -> Result<(), Memory>
    ensures { OnOk result (string_bytes out.new ≡ string_bytes out.old ++ order_line names.now order) }
{
    let Some((overtaken, taken)) = order else {
        out.push_str("order yes\n")?;
        return Ok(());
    };
    push_overtaken(out, names, overtaken, taken)
}

/// Appends the line on uses.
fn push_uses(out: &mut String, uses: Option<u64>) -> Result<(), Memory>
    ensures { OnOk result (string_bytes out.new ≡ string_bytes out.old ++ uses_line uses) }
{
    let Some(line) = uses else {
        out.push_str("uses yes\n")?;
        return Ok(());
    };
    write!(out, "uses no {line}\n")?;
    Ok(())
}

/// The judgement on a trace.
fn judged(alloc: Global, trace: &Trace) -> Result<String, Memory>
    ensures { IfOk result (λ text. Checks trace.now (string_bytes text)) }
{
    let order = judge_order(alloc, trace)?;
    let uses = judge_uses(alloc, trace)?;
    let mut text = String::new(alloc);
    push_order(&mut text, trace.names.as_slice(), order)?;
    push_uses(&mut text, uses)?;
    Ok(text)
}

/// The judgement on the trace that bytes spell, or the first rule that the bytes break, as `ev_trace::read_trace` tells them:
/// a line `order yes` or `order no M1 M2`, and a line `uses yes` or `uses no LINE`, each with its line feed. Time grows with
/// the trace, and with what leads to each name that is used and that its activation does not have by itself.
pub fn tell(alloc: Global, bytes: &[u8]) -> Result<String, ScriptFault>
    ensures { Tells result (read bytes.now) }
{
    let trace = read_trace(alloc, bytes)?;
    Ok(judged(alloc, &trace)?)
}
