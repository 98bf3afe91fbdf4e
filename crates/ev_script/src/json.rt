//! Parts of a JSON value.

ghost use Rattle.std.specs.Prelude.{◌≡◌, IfOk, map, option_map, is_some};
ghost use Rattle.serde_json.specs.Find.{as_object, as_str, get};
ghost use Rattle.serde_json.specs.View.{view};
ghost use Rattle.ev_script.specs.Json.{each, has_count, json_of, list_at, list_of, text_at};

use ev_base::{Memory, Seq, Str};
use serde_json::{Category, Value};
use std::alloc::Global;

/// The JSON value of the bytes.
pub fn read_json(alloc: Global, bytes: &[u8]) -> Result<Option<Value>, Memory>
    ensures { IfOk result (λ o. option_map view o ≡ json_of bytes.now) }
{
    match Value::from_slice(alloc, bytes) {
        Ok(value) => Ok(Some(value)),
        Err(error) => match error.classify() {
            Category::Memory => Err(Memory),
            _ => Ok(None),
        },
    }
}

/// Whether the value is an object of so many members.
pub fn has_count(value: &Value, count: usize) -> bool
    ensures { result ≡ has_count count (as_object (view value.now)) }
{
    match value.as_object() {
        Some(members) => members.len() == count,
        None => false,
    }
}

/// Whether the value is an object with a member of this name.
pub fn has_member(value: &Value, name: &str) -> bool
    ensures { result ≡ is_some (get name.now (view value.now)) }
{
    value.get(name).is_some()
}

/// The member that is a text.
pub(crate) fn text_at<'v>(value: &'v Value, name: &str) -> Option<&'v str>
    ensures { option_map (λ text. text.now) result ≡ text_at name.now (view value.now) }
{
    value.get(name).and_then(Value::as_str)
}

/// The items of a value that is a list.
#[tactic(auto, using(crate::proofs::JsonLemmas::listed_items_of))]
pub fn list_of(value: &Value) -> Option<&[Value]>
    ensures { option_map (λ list. map view list.now) result ≡ list_of (view value.now) }
{
    value.as_array().map(Vec::as_slice)
}

/// The items of the member that is a list.
pub fn list_at<'v>(value: &'v Value, name: &str) -> Option<&'v [Value]>
    ensures { option_map (λ list. map view list.now) result ≡ list_at name.now (view value.now) }
{
    value.get(name).and_then(list_of)
}

/// The values as texts, where each is one.
pub(crate) fn texts_of(alloc: Global, values: &[Value]) -> Result<Option<Seq<Str>>, Memory>
    ensures { IfOk result (λ texts. texts ≡ each as_str (map view values.now)) }
{
    let mut texts = Seq::new(alloc);
    for value in values {
        let Some(text) = value.as_str() else {
            return Ok(None);
        };
        texts.push(Str::copy_of(alloc, text)?)?;
    }
    Ok(Some(texts))
}
