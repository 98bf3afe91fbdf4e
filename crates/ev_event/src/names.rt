//! Names, messages and numbers in a line.

ghost use Rattle.std.specs.Prelude.{◌≡◌, ◌<◌, ◌++◌, ◌∷◌, OnOk, string_bytes, decimal};
ghost use Rattle.def_event.specs.Lines.{activation, primitive_name, vat, numbered, message, name, hex, low_first};

use crate::hex::push_key;
use ev_base::{Msg, Name, Str, VatId};
use itoa::Buffer;
use std::alloc::AllocError;

/// Appends a number.
pub fn push_number(out: &mut String, number: u64) -> Result<(), AllocError>
    ensures { OnOk result (string_bytes out.new ≡ string_bytes out.old ++ decimal number) }
{
    let mut digits = Buffer::new();
    out.push_str(digits.format(number))
}

/// Appends an activation of a vat by its number.
pub fn push_activation(out: &mut String, number: u64) -> Result<(), AllocError>
    ensures { OnOk result (string_bytes out.new ≡ string_bytes out.old ++ activation number) }
{
    out.push('!')?;
    push_number(out, number)
}

/// Appends the name of a vat.
pub fn push_vat(out: &mut String, names: &[Str], id: VatId) -> Result<(), AllocError>
    ensures { OnOk result (string_bytes out.new ≡ string_bytes out.old ++ vat names.now id) }
{
    match names.get(id.0 as usize) {
        Some(word) => out.push_str(word.as_str()),
        None => Ok(()),
    }
}

/// Appends a thing of a vat by a mark and its number there.
pub fn push_numbered(
    out: &mut String,
    names: &[Str],
    id: VatId,
    mark: char,
    number: u64,
) -> Result<(), AllocError>
    requires { mark < 128 }
    ensures { OnOk result (string_bytes out.new ≡ string_bytes out.old ++ numbered names.now id mark number) }
{
    push_vat(out, names, id)?;
    out.push(mark)?;
    push_number(out, number)
}

/// Appends a message.
pub fn push_message(out: &mut String, names: &[Str], id: &Msg) -> Result<(), AllocError>
    ensures { OnOk result (string_bytes out.new ≡ string_bytes out.old ++ message names.now id.now) }
{
    push_numbered(out, names, id.sender, '/', id.number)
}

/// Appends a gift that a hostile vat named first, by its provider and its word.
fn push_claimed(
    out: &mut String,
    names: &[Str],
    host: VatId,
    provider: VatId,
    word: u128,
) -> Result<(), AllocError>
    ensures { OnOk result (string_bytes out.new ≡ string_bytes out.old ++ vat names.now host ++ 94 ∷ (vat names.now provider ++ 58 ∷ hex (low_first 16 word))) }
{
    push_vat(out, names, host)?;
    out.push('^')?;
    push_vat(out, names, provider)?;
    out.push(':')?;
    push_key(out, word)
}

/// Appends a name.
pub fn push_name(out: &mut String, names: &[Str], id: &Name) -> Result<(), AllocError>
    ensures { OnOk result (string_bytes out.new ≡ string_bytes out.old ++ name names.now id.now) }
{
    match id {
        Name::Object(host, number) => push_numbered(out, names, *host, '.', *number),
        Name::Own(host, number) => push_numbered(out, names, *host, '~', *number),
        Name::Gift(host, number) => push_numbered(out, names, *host, '^', *number),
        Name::Answer(host, answered) => {
            push_vat(out, names, *host)?;
            out.push('?')?;
            push_message(out, names, answered)
        }
        Name::Root(host) => {
            out.push('@')?;
            push_vat(out, names, *host)
        }
        Name::Claimed(host, provider, word) => push_claimed(out, names, *host, *provider, *word),
    }
}
