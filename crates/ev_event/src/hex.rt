//! Bytes as hexadecimal digits.

ghost use Rattle.std.specs.Prelude.{◌≡◌, ◌/◌, ◌%◌, ◌++◌, ◌∷◌, [], OnOk, string_bytes};
ghost use Rattle.std.specs.Char.{digit_char};
ghost use Rattle.def_event.specs.Lines.{hex, low_first};

use std::alloc::AllocError;

/// A byte as two hexadecimal digits.
fn push_byte(out: &mut String, byte: u8) -> Result<(), AllocError>
    ensures { OnOk result (string_bytes out.new ≡ string_bytes out.old ++ digit_char (byte / 16) ∷ digit_char (byte % 16) ∷ []) }
{
    if let Some(digit) = char::from_digit(u32::from(byte / 16), 16) {
        out.push(digit)?;
    }
    if let Some(digit) = char::from_digit(u32::from(byte % 16), 16) {
        out.push(digit)?;
    }
    Ok(())
}

/// The bytes of a note that was carried, or of a frame.
pub(crate) fn push_hex(out: &mut String, bytes: &[u8]) -> Result<(), AllocError>
    ensures { OnOk result (string_bytes out.new ≡ string_bytes out.old ++ hex bytes.now) }
{
    for byte in bytes {
        push_byte(out, *byte)?;
    }
    Ok(())
}

/// The sixteen bytes of a word, the lowest first.
pub(crate) fn push_key(out: &mut String, word: u128) -> Result<(), AllocError>
    ensures { OnOk result (string_bytes out.new ≡ string_bytes out.old ++ hex (low_first 16 word)) }
{
    let mut rest = word;
    for _turn in 0..16u8 {
        push_byte(out, (rest % 256) as u8)?;
        rest /= 256;
    }
    Ok(())
}
