//! Labels, in which no character ends the line or the element that it stands in.

ghost use Rattle.std.specs.Prelude.{◌≡◌, ◌++◌, OnOk, string_bytes};
ghost use Rattle.def_draw.specs.Diagram.{escaped, escaped_character, is_plain};

use ev_base::Memory;

/// Whether a character stands for itself in a label.
#[tactic(auto, unfolding(def_draw::specs::Diagram::is_plain))]
fn is_plain(c: char) -> bool
    ensures { result ≡ is_plain c }
{
    let code = c as u32;
    (code >= 97 && code <= 122)
        || (code >= 63 && code <= 91)
        || (code >= 40 && code <= 58)
        || code == 32
        || code == 33
        || code == 61
        || (code >= 93 && code <= 95)
        || code == 126
}

/// Appends a character as it stands in a label: itself, or its number between `#` and `;`.
#[tactic(auto, unfolding(def_draw::specs::Diagram::escaped_character))]
fn push_escaped_character(out: &mut String, c: char) -> Result<(), Memory>
    ensures { OnOk result (string_bytes out.new ≡ string_bytes out.old ++ escaped_character c) }
{
    if is_plain(c) {
        out.push(c)?;
        return Ok(());
    }
    let code = c as u32;
    write!(out, "#{code};")?;
    Ok(())
}

/// Appends a text as it stands in a label.
#[tactic(auto, unfolding(def_draw::specs::Diagram::escaped))]
pub fn push_escaped(out: &mut String, text: &str) -> Result<(), Memory>
    ensures { OnOk result (string_bytes out.new ≡ string_bytes out.old ++ escaped text.now) }
{
    for c in text.chars() {
        push_escaped_character(out, c)?;
    }
    Ok(())
}
