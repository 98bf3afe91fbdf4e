//! Writing a text of vats.

ghost use Rattle.std.specs.Prelude.{◌≡◌, ◌≢◌, ◌++◌, ◌↔◌, IfOk, OnOk, IsTrue, Ok, MatchOption};
ghost use Rattle.std.specs.List.{flat_map, list_any};
ghost use Rattle.def_vats.specs.Reading.{is_head, told};
ghost use Rattle.ev_make_write.specs.Writing.{fuel_text, key_text, plain_vat, quoted_vat, schedule_text, stands_for, text_of, vat_text};

use crate::parts::{push_barred, push_head, push_line, push_lines};
use crate::same::same;
use def_vats::{Told, ToldVat};
use ev_base::{Memory, Str};
use ev_make_text::{TextFault, is_head, lines_of, plain_source, read_text};
use std::alloc::Global;

/// The key that is not told.
const NO_KEY: &str = "0000000000000000000000000000000000000000000000000000000000000000";

/// Whether a line is a head.
fn has_head(lines: &[Str]) -> bool
    ensures { result ≡ list_any is_head lines.now }
{
    lines.iter().any(|line| is_head(line.as_str()))
}

/// Whether lines can stand for a source as it is.
fn stands_for(alloc: Global, lines: &[Str], source: &str) -> Result<bool, Memory>
    ensures { IfOk result (λ yes. yes ≡ stands_for lines.now source.now) }
{
    let plain = plain_source(alloc, lines)?;
    Ok(!has_head(lines) && plain.as_str() == source)
}

/// Appends a vat with its source as it is.
fn push_plain(out: &mut Str, vat: &ToldVat, lines: &[Str]) -> Result<(), Memory>
    ensures { OnOk result (out.new ≡ out.old ++ plain_vat vat.now lines.now) }
{
    push_head(out, "vat", vat)?;
    push_lines(out, lines)?;
    Ok(())
}

/// Appends a vat with its source behind bars.
fn push_quoted(out: &mut Str, vat: &ToldVat, lines: &[Str]) -> Result<(), Memory>
    ensures { OnOk result (out.new ≡ out.old ++ quoted_vat vat.now lines.now) }
{
    push_head(out, "quoted", vat)?;
    push_barred(out, lines)?;
    Ok(())
}

/// Appends a vat.
fn push_vat(alloc: Global, out: &mut Str, vat: &ToldVat) -> Result<(), Memory>
    ensures { OnOk result (out.new ≡ out.old ++ vat_text vat.now) }
{
    let lines = lines_of(alloc, vat.source.as_str())?;
    let plain = stands_for(alloc, lines.as_slice(), vat.source.as_str())?;
    if plain {
        push_plain(out, vat, lines.as_slice())?;
    } else {
        push_quoted(out, vat, lines.as_slice())?;
    }
    Ok(())
}

/// Appends the vats.
fn push_vats(alloc: Global, out: &mut Str, vats: &[ToldVat]) -> Result<(), Memory>
    ensures { OnOk result (out.new ≡ out.old ++ flat_map vat_text vats.now) }
{
    for vat in vats {
        push_vat(alloc, out, vat)?;
    }
    Ok(())
}

/// Appends a key.
fn push_key(out: &mut Str, key: &str) -> Result<(), Memory>
    ensures { OnOk result (out.new ≡ out.old ++ key_text key.now) }
{
    if key == NO_KEY {
        return Ok(());
    }
    out.push("=== key ")?;
    push_line(out, key)
}

/// Appends a fuel.
fn push_fuel(alloc: Global, out: &mut Str, fuel: Option<u64>) -> Result<(), Memory>
    ensures { OnOk result (out.new ≡ out.old ++ fuel_text fuel) }
{
    let Some(fuel) = fuel else {
        return Ok(());
    };
    let digits = format!(in alloc; "{fuel}")?;
    out.push("=== fuel ")?;
    push_line(out, digits.as_str())
}

/// Appends a schedule.
fn push_schedule(out: &mut Str, entries: &[Str]) -> Result<(), Memory>
    ensures { OnOk result (out.new ≡ out.old ++ schedule_text entries.now) }
{
    push_line(out, "=== schedule")?;
    push_lines(out, entries)?;
    Ok(())
}

/// The text of vats for what is told, as the definition has it. It refuses for want of memory alone.
pub fn text_of(alloc: Global, told: &Told) -> Result<Str, Memory>
    ensures { IfOk result (λ text. text ≡ text_of told.now) }
{
    let mut out = Str::new(alloc);
    push_key(&mut out, told.key.as_str())?;
    push_fuel(alloc, &mut out, told.fuel)?;
    push_vats(alloc, &mut out, told.vats.as_slice())?;
    push_schedule(&mut out, told.schedule.as_slice())?;
    Ok(out)
}

/// Whether a text says what is told.
fn says(alloc: Global, text: &str, due: &Told) -> Result<bool, Memory>
    ensures { IfOk result (λ yes. IsTrue yes ↔ (told text.now ≡ Ok due.now)) }
{
    match read_text(alloc, text) {
        Ok(found) => Ok(same(&found, due)),
        Err(TextFault::Line(_)) => Ok(false),
        Err(TextFault::Memory) => Err(Memory),
    }
}

/// The text of vats for what is told, which says that and nothing else. None exactly where the text would say something else, as
/// where an entry has a line feed in it.
pub fn write_text(alloc: Global, due: &Told) -> Result<Option<Str>, Memory>
    ensures { IfOk result (λ text. MatchOption text (told (text_of due.now) ≢ Ok due.now) (λ t. (t ≡ text_of due.now) × (told t ≡ Ok due.now))) }
{
    let text = text_of(alloc, due)?;
    if says(alloc, text.as_str(), due)? {
        Ok(Some(text))
    } else {
        Ok(None)
    }
}
