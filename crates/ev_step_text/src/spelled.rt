//! Verbs in lines. Whether one is an identifier is found once in a log.

ghost use Rattle.std.specs.Prelude.{◌≡◌, ◌<◌, ◌++◌, ◌∷◌, IfSome, OnOk, Some, length, slice_get, slice_set, string_bytes};
ghost use Rattle.def_text.specs.Keywords.{is_identifier, printed_verb};
ghost use Rattle.ev_heap.specs.Verbs.{text_at};
ghost use Rattle.ev_step_text.specs.Spelled.{IsKnown};

use ev_heap::Cursor;
use ev_text::{is_identifier, push_quoted};
use std::alloc::AllocError;

/// Appends a verb of which it is known whether it is an identifier, behind a space.
pub(crate) fn add_verb(out: &mut String, verb: &str, plain: bool) -> Result<(), AllocError>
    requires { plain ≡ is_identifier verb.now }
    ensures { OnOk result (string_bytes out.new ≡ string_bytes out.old ++ 32 ∷ printed_verb verb.now) }
{
    out.push(' ')?;
    if plain {
        out.push_str(verb)
    } else {
        push_quoted(out, verb)
    }
}

/// What is known of the verb at a place.
fn known_at(known: &[Option<bool>], place: u32) -> Option<bool>
    ensures { IfSome result (λ plain. slice_get known.now place ≡ Some (Some plain)) }
{
    match known.get(place as usize) {
        None => None,
        Some(plain) => *plain,
    }
}

/// What is found of the verb at a place is known from then on, where there is room for it.
#[tactic(auto, using(std::proofs::lemmas::List::set_past))]
fn keep(known: &mut [Option<bool>], place: u32, plain: bool)
    ensures { known.new ≡ slice_set known.old place (Some plain) }
{
    let place = place as usize;
    if place < known.len() {
        known[place] = Some(plain);
    }
}

/// Whether the verb at a place is an identifier.
pub(crate) fn is_plain(read: &Cursor<'_>, known: &mut [Option<bool>], place: u32) -> bool
    requires there { place < length read.now.verbs }
    requires known { IsKnown read.now.verbs known.old }
    ensures plain { result ≡ is_identifier (text_at read.now.verbs place) }
    ensures known { IsKnown read.now.verbs known.new }
{
    if let Some(plain) = known_at(known, place) {
        return plain;
    }
    let plain = is_identifier(read.verb(place).as_str());
    keep(known, place, plain);
    plain
}
