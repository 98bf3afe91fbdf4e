//! The words of a line, each behind a space.

ghost use Rattle.std.specs.Prelude.{◌≡◌, ◌<◌, ◌++◌, ◌∷◌, [], OnOk, string_bytes, flat_map};
ghost use Rattle.def_text.specs.Keywords.{printed_verb};
ghost use Rattle.def_event.specs.Lines.{vat, numbered, message, name, value, values, part, spaced};

use crate::names::{push_message, push_name, push_numbered, push_vat};
use crate::values::push_value;
use def_event::shown::Shown;
use ev_base::{Msg, Name, Str, VatId};
use ev_text::push_verb;
use std::alloc::{AllocError, Global};

/// Appends a word.
pub fn add_word(out: &mut String, word: &str) -> Result<(), AllocError>
    ensures { OnOk result (string_bytes out.new ≡ string_bytes out.old ++ 32 ∷ word.now) }
{
    out.push(' ')?;
    out.push_str(word)
}

/// Appends a verb.
pub fn add_verb(out: &mut String, verb: &str) -> Result<(), AllocError>
    ensures { OnOk result (string_bytes out.new ≡ string_bytes out.old ++ 32 ∷ printed_verb verb.now) }
{
    out.push(' ')?;
    push_verb(out, verb)
}

/// Appends a vat.
pub(crate) fn add_vat(out: &mut String, names: &[Str], id: VatId) -> Result<(), AllocError>
    ensures { OnOk result (string_bytes out.new ≡ string_bytes out.old ++ 32 ∷ vat names.now id) }
{
    out.push(' ')?;
    push_vat(out, names, id)
}

/// Appends a thing of a vat by a mark and its number there.
pub fn add_numbered(
    out: &mut String,
    names: &[Str],
    id: (VatId, u64),
    mark: char,
) -> Result<(), AllocError>
    requires { mark < 128 }
    ensures { OnOk result (string_bytes out.new ≡ string_bytes out.old ++ 32 ∷ numbered names.now id.0 mark id.1) }
{
    out.push(' ')?;
    push_numbered(out, names, id.0, mark, id.1)
}

/// Appends a message.
pub fn add_message(out: &mut String, names: &[Str], id: &Msg) -> Result<(), AllocError>
    ensures { OnOk result (string_bytes out.new ≡ string_bytes out.old ++ 32 ∷ message names.now id.now) }
{
    out.push(' ')?;
    push_message(out, names, id)
}

/// Appends a name.
pub fn add_name(out: &mut String, names: &[Str], id: &Name) -> Result<(), AllocError>
    ensures { OnOk result (string_bytes out.new ≡ string_bytes out.old ++ 32 ∷ name names.now id.now) }
{
    out.push(' ')?;
    push_name(out, names, id)
}

/// Appends a value.
pub fn add_value(
    alloc: Global,
    out: &mut String,
    names: &[Str],
    x: &Shown,
) -> Result<(), AllocError>
    ensures { OnOk result (string_bytes out.new ≡ string_bytes out.old ++ 32 ∷ value names.now x.now) }
{
    out.push(' ')?;
    push_value(alloc, out, names, x)
}

/// Appends values.
pub(crate) fn add_values(
    alloc: Global,
    out: &mut String,
    names: &[Str],
    xs: &[Shown],
) -> Result<(), AllocError>
    ensures { OnOk result (string_bytes out.new ≡ string_bytes out.old ++ flat_map (λ v. 32 ∷ v) (values names.now xs.now)) }
{
    for x in xs {
        add_value(alloc, out, names, x)?;
    }
    Ok(())
}

/// Appends a word and values, and nothing where there are no values.
pub(crate) fn add_part(
    alloc: Global,
    out: &mut String,
    names: &[Str],
    word: &str,
    xs: &[Shown],
) -> Result<(), AllocError>
    ensures { OnOk result (string_bytes out.new ≡ string_bytes out.old ++ flat_map (λ v. 32 ∷ v) (part names.now word.now xs.now)) }
{
    if xs.is_empty() {
        return Ok(());
    }
    add_word(out, word)?;
    add_values(alloc, out, names, xs)
}

/// A word and two names.
pub(crate) fn push_names(
    out: &mut String,
    names: &[Str],
    word: &str,
    first: &Name,
    second: &Name,
) -> Result<(), AllocError>
    ensures { OnOk result (string_bytes out.new ≡ string_bytes out.old ++ spaced (word.now ∷ name names.now first.now ∷ name names.now second.now ∷ [])) }
{
    out.push_str(word)?;
    add_name(out, names, first)?;
    add_name(out, names, second)
}

/// A word, a name and a value.
pub(crate) fn push_name_and_value(
    alloc: Global,
    out: &mut String,
    names: &[Str],
    word: &str,
    subject: &Name,
    x: &Shown,
) -> Result<(), AllocError>
    ensures { OnOk result (string_bytes out.new ≡ string_bytes out.old ++ spaced (word.now ∷ name names.now subject.now ∷ value names.now x.now ∷ [])) }
{
    out.push_str(word)?;
    add_name(out, names, subject)?;
    add_value(alloc, out, names, x)
}
