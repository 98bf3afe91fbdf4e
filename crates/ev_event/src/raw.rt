//! The lines about injected frames.

ghost use Rattle.std.specs.Prelude.{◌≡◌, ◌++◌, ◌∷◌, [], OnOk, string_bytes, decimal, codes, flat_map};
ghost use Rattle.def_event.specs.Lines.{vat, spaced, hex, raw_words};

use crate::hex::push_hex;
use crate::line::{push_at_vat, push_link_entry};
use crate::names::push_number;
use crate::words::{add_vat, add_word};
use def_event::raw::RawLine;
use ev_base::{Str, VatId};
use std::alloc::AllocError;

/// Bytes, behind a space.
fn add_hex(out: &mut String, bytes: &[u8]) -> Result<(), AllocError>
    ensures { OnOk result (string_bytes out.new ≡ string_bytes out.old ++ 32 ∷ hex bytes.now) }
{
    out.push(' ')?;
    push_hex(out, bytes)
}

/// The bytes of a frame that is not judged.
fn add_bytes(out: &mut String, bytes: &[u8]) -> Result<(), AllocError>
    ensures { OnOk result (string_bytes out.new ≡ string_bytes out.old ++ flat_map (λ v. 32 ∷ v) (codes "bytes" ∷ hex bytes.now ∷ [])) }
{
    add_word(out, "bytes")?;
    add_hex(out, bytes)
}

/// Where a frame fails that is no operation.
fn add_place(out: &mut String, place: u64) -> Result<(), AllocError>
    ensures { OnOk result (string_bytes out.new ≡ string_bytes out.old ++ flat_map (λ v. 32 ∷ v) (codes "malformed" ∷ decimal place ∷ [])) }
{
    out.push_str(" malformed ")?;
    push_number(out, place)
}

/// A frame that is put on a link.
fn push_injected(
    out: &mut String,
    names: &[Str],
    entry: u64,
    from: VatId,
    to: VatId,
    bytes: &[u8],
) -> Result<(), AllocError>
    ensures { OnOk result (string_bytes out.new ≡ string_bytes out.old ++ spaced (decimal entry ∷ codes "inject" ∷ vat names.now from ∷ vat names.now to ∷ hex bytes.now ∷ [])) }
{
    push_link_entry(out, names, entry, "inject", from, to)?;
    add_hex(out, bytes)
}

/// A frame that is put on no link.
fn push_injected_cut(
    out: &mut String,
    names: &[Str],
    entry: u64,
    from: VatId,
    to: VatId,
) -> Result<(), AllocError>
    ensures { OnOk result (string_bytes out.new ≡ string_bytes out.old ++ spaced (decimal entry ∷ codes "inject" ∷ vat names.now from ∷ vat names.now to ∷ codes "cut" ∷ [])) }
{
    push_link_entry(out, names, entry, "inject", from, to)?;
    add_word(out, "cut")
}

/// A frame that is no operation, and where it fails.
fn push_malformed(
    out: &mut String,
    names: &[Str],
    entry: u64,
    from: VatId,
    to: VatId,
    place: u64,
) -> Result<(), AllocError>
    ensures { OnOk result (string_bytes out.new ≡ string_bytes out.old ++ spaced (decimal entry ∷ codes "carry" ∷ vat names.now from ∷ vat names.now to ∷ codes "malformed" ∷ decimal place ∷ [])) }
{
    push_link_entry(out, names, entry, "carry", from, to)?;
    add_place(out, place)
}

/// A frame that comes to a hostile vat.
fn push_bytes(
    out: &mut String,
    names: &[Str],
    entry: u64,
    from: VatId,
    to: VatId,
    bytes: &[u8],
) -> Result<(), AllocError>
    ensures { OnOk result (string_bytes out.new ≡ string_bytes out.old ++ spaced (decimal entry ∷ codes "carry" ∷ vat names.now from ∷ vat names.now to ∷ codes "bytes" ∷ hex bytes.now ∷ [])) }
{
    push_link_entry(out, names, entry, "carry", from, to)?;
    add_bytes(out, bytes)
}

/// A frame that is left on a link.
fn push_left_bytes(
    out: &mut String,
    names: &[Str],
    from: VatId,
    to: VatId,
    bytes: &[u8],
) -> Result<(), AllocError>
    ensures { OnOk result (string_bytes out.new ≡ string_bytes out.old ++ spaced (codes "left" ∷ codes "link" ∷ vat names.now from ∷ vat names.now to ∷ codes "bytes" ∷ hex bytes.now ∷ [])) }
{
    push_at_vat(out, names, "left link", from)?;
    add_vat(out, names, to)?;
    add_bytes(out, bytes)
}

/// A line about an injected frame.
pub(crate) fn push_raw(out: &mut String, names: &[Str], line: &RawLine) -> Result<(), AllocError>
    ensures { OnOk result (string_bytes out.new ≡ string_bytes out.old ++ spaced (raw_words names.now line.now)) }
{
    match line {
        RawLine::Inject(entry, v, w, bytes) => push_injected(
            out,
            names,
            *entry,
            *v,
            *w,
            bytes.as_slice(),
        ),
        RawLine::InjectCut(entry, v, w) => push_injected_cut(out, names, *entry, *v, *w),
        RawLine::Malformed(entry, v, w, place) => push_malformed(
            out, names, *entry, *v, *w, *place,
        ),
        RawLine::Bytes(entry, v, w, bytes) => push_bytes(
            out,
            names,
            *entry,
            *v,
            *w,
            bytes.as_slice(),
        ),
        RawLine::LeftBytes(v, w, bytes) => push_left_bytes(out, names, *v, *w, bytes.as_slice()),
    }
}
