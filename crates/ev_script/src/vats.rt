//! The vats of a script.

ghost use Rattle.std.specs.Prelude.{◌≡◌, ◌≤◌, ◌+◌, ◌==◌, [], IfOk, IfSome, length, map, option_map};
ghost use Rattle.std.specs.List.{list_all, list_any};
ghost use Rattle.std.specs.Str.{bytes_eq};
ghost use Rattle.serde_json.specs.View.{view};
ghost use Rattle.ev_script.specs.Json.{each};
ghost use Rattle.ev_script.specs.Vats.{are_others, are_vat_names, begins_lower, differ, is_lower_or_digit, is_source, is_vat_name, is_vat_object, known, known_from, names_of, place_of, stand_once, vat_members, vat_of, vats_in, vats_of};

use crate::json::{has_count, has_member, list_at, text_at, texts_of};
use crate::script::VatScript;
use ev_base::{Memory, Seq, Str, VatId, safe_value};
use ev_text::is_keyword;
use serde_json::Value;
use std::alloc::Global;

/// The most bytes of a source.
const MOST_SOURCE: usize = 65_536;

/// The most vats of a script.
const MOST_VATS: usize = 16;

/// What a script says of a vat.
#[derive(Drop)]
pub struct Described {
    pub name: Str,
    /// The names of the vats that it knows.
    pub knows: Seq<Str>,
    pub source: Str,
}

/// Whether the value is an object with exactly the members of a vat.
fn is_vat_object(value: &Value) -> bool
    ensures { result ≡ is_vat_object (view value.now) }
{
    has_count(value, 3)
        && has_member(value, "name")
        && has_member(value, "knows")
        && has_member(value, "source")
}

/// What the members of a vat say, where each is of its kind.
fn vat_members(alloc: Global, value: &Value) -> Result<Option<Described>, Memory>
    ensures { IfOk result (λ vat. vat ≡ vat_members (view value.now)) }
{
    let Some(name) = text_at(value, "name") else {
        return Ok(None);
    };
    let Some(list) = list_at(value, "knows") else {
        return Ok(None);
    };
    let Some(knows) = texts_of(alloc, list)? else {
        return Ok(None);
    };
    let Some(source) = text_at(value, "source") else {
        return Ok(None);
    };
    Ok(Some(Described {
        name: Str::copy_of(alloc, name)?,
        knows,
        source: Str::copy_of(alloc, source)?,
    }))
}

fn vat_of(alloc: Global, value: &Value) -> Result<Option<Described>, Memory>
    ensures { IfOk result (λ vat. vat ≡ vat_of (view value.now)) }
{
    if !is_vat_object(value) {
        return Ok(None);
    }
    vat_members(alloc, value)
}

fn each_vat(alloc: Global, values: &[Value]) -> Result<Option<Seq<Described>>, Memory>
    ensures vats { IfOk result (λ vats. vats ≡ each vat_of (map view values.now)) }
    ensures as_many { IfOk result (λ vats. IfSome vats (λ vats. length vats ≡ length values.now)) }
{
    let mut vats = Seq::new(alloc);
    for value in values {
        let Some(vat) = vat_of(alloc, value)? else {
            return Ok(None);
        };
        vats.push(vat)?;
    }
    Ok(Some(vats))
}

fn vats_in(alloc: Global, values: &[Value]) -> Result<Option<Seq<Described>>, Memory>
    ensures vats { IfOk result (λ vats. vats ≡ vats_in (map view values.now)) }
    ensures few { IfOk result (λ vats. IfSome vats (λ vats. length vats ≤ 16)) }
{
    if values.len() > MOST_VATS {
        return Ok(None);
    }
    each_vat(alloc, values)
}

/// What a script says of its vats, where it says it of at most 16 in the right form.
pub(crate) fn vats_of(alloc: Global, value: &Value) -> Result<Option<Seq<Described>>, Memory>
    ensures vats { IfOk result (λ vats. vats ≡ vats_of (view value.now)) }
    ensures few { IfOk result (λ vats. IfSome vats (λ vats. length vats ≤ 16)) }
{
    match list_at(value, "vats") {
        Some(values) => vats_in(alloc, values),
        None => Ok(None),
    }
}

fn begins_lower(bytes: &[u8]) -> bool
    ensures { result ≡ begins_lower bytes.now }
{
    match bytes {
        [] => false,
        [first, ..] => first.is_ascii_lowercase(),
    }
}

fn is_lower_or_digit(byte: u8) -> bool
    ensures { result ≡ is_lower_or_digit byte }
{
    byte.is_ascii_lowercase() || byte.is_ascii_digit()
}

fn are_lower_or_digits(bytes: &[u8]) -> bool
    ensures { result ≡ list_all is_lower_or_digit bytes.now }
{
    bytes.iter().all(|byte| is_lower_or_digit(*byte))
}

/// Whether a vat may have the name.
fn is_vat_name(word: &str) -> bool
    ensures { result ≡ is_vat_name word.now }
{
    word.len() <= 16
        && begins_lower(word.as_bytes())
        && are_lower_or_digits(word.as_bytes())
        && !is_keyword(word)
        && safe_value(word).is_none()
}

/// The names of the vats.
pub fn names_of(alloc: Global, vats: &[Described]) -> Result<Seq<Str>, Memory>
    ensures names { IfOk result (λ names. names ≡ names_of vats.now) }
    ensures as_many { IfOk result (λ names. length names ≡ length vats.now) }
{
    let mut names = Seq::new(alloc);
    for vat in vats {
        names.push(Str::copy_of(alloc, vat.name.as_str())?)?;
    }
    Ok(names)
}

/// Whether the word stands among the names.
fn is_among(word: &str, names: &[Str]) -> bool
    ensures { result ≡ list_any (bytes_eq word.now) names.now }
{
    names.iter().any(|name| word == name.as_str())
}

/// Whether no name stands twice.
fn differ(names: &[Str]) -> bool
    ensures { result ≡ differ names.now }
{
    let mut rest = names;
    while let [name, behind @ ..] = rest {
        if is_among(name.as_str(), behind) {
            return false;
        }
        rest = behind;
    }
    true
}

/// Whether a vat may have each name.
fn are_all_names(names: &[Str]) -> bool
    ensures { result ≡ list_all is_vat_name names.now }
{
    names.iter().all(|name| is_vat_name(name.as_str()))
}

/// Whether these may be the names of the vats of a script.
pub(crate) fn are_vat_names(names: &[Str]) -> bool
    ensures { result ≡ are_vat_names names.now }
{
    are_all_names(names) && differ(names)
}

fn is_source(vat: &Described) -> bool
    ensures { result ≡ is_source vat.now }
{
    vat.source.len() <= MOST_SOURCE
}

/// Whether each source is short enough.
pub(crate) fn are_sources(vats: &[Described]) -> bool
    ensures { result ≡ list_all is_source vats.now }
{
    vats.iter().all(is_source)
}

/// The vat of this name.
pub fn place_of(names: &[Str], word: &str) -> Option<VatId>
    requires { length names.now ≤ 16 }
    ensures { result ≡ place_of names.now word.now }
{
    let mut place = 0;
    for name in names {
        if word == name.as_str() {
            return Some(VatId(place));
        }
        place += 1;
    }
    None
}

/// The vats of these names, where each is the name of one.
fn places_of(alloc: Global, names: &[Str], words: &[Str]) -> Result<Option<Seq<VatId>>, Memory>
    requires { length names.now ≤ 16 }
    ensures { IfOk result (λ places. places ≡ each (place_of names.now) words.now) }
{
    let mut places = Seq::new(alloc);
    for word in words {
        let Some(place) = place_of(names, word.as_str()) else {
            return Ok(None);
        };
        places.push(place)?;
    }
    Ok(Some(places))
}

/// Whether the vat stands among these.
fn has_vat(places: &[VatId], vat: VatId) -> bool
    ensures { result ≡ list_any (λ p. p == vat) places.now }
{
    places.iter().any(|place| *place == vat)
}

/// Whether no vat stands twice. Among more than 16 the second is found early.
pub fn stand_once(places: &[VatId]) -> bool
    ensures { result ≡ stand_once [] places.now }
{
    for i in 0..places.len() {
        if has_vat(&places[..i], places[i]) {
            return false;
        }
    }
    true
}

/// Whether each is another vat than this one, and none stands twice.
fn are_others(places: &[VatId], vat: VatId) -> bool
    ensures { result ≡ are_others vat places.now }
{
    !has_vat(places, vat) && stand_once(places)
}

/// The vats of these names, where each is another vat than this one and none stands twice.
fn known(
    alloc: Global,
    names: &[Str],
    vat: VatId,
    words: &[Str],
) -> Result<Option<Seq<VatId>>, Memory>
    requires { length names.now ≤ 16 }
    ensures { IfOk result (λ places. places ≡ known names.now vat words.now) }
{
    let Some(places) = places_of(alloc, names, words)? else {
        return Ok(None);
    };
    if are_others(places.as_slice(), vat) {
        Ok(Some(places))
    } else {
        Ok(None)
    }
}

/// The vats of a script with whom each knows, where each knows others only and none twice.
pub fn known_by_all(
    alloc: Global,
    names: &[Str],
    vats: &[Described],
) -> Result<Option<Seq<VatScript>>, Memory>
    requires few { length names.now ≤ 16 }
    requires fit { length vats.now ≤ 16 }
    ensures { IfOk result (λ known. known ≡ known_from names.now 0 vats.now) }
{
    let mut scripts = Seq::new(alloc);
    let mut place = 0;
    for vat in vats {
        let Some(knows) = known(alloc, names, VatId(place), vat.knows.as_slice())? else {
            return Ok(None);
        };
        scripts.push(VatScript {
            name: Str::copy_of(alloc, vat.name.as_str())?,
            knows,
            source: Str::copy_of(alloc, vat.source.as_str())?,
        })?;
        place += 1;
    }
    Ok(Some(scripts))
}
