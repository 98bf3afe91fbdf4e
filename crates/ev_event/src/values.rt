//! Values in a line.

ghost use Rattle.std.specs.Prelude.{◌≡◌, ℕ, List, ◌+◌, ◌<◌, ◌++◌, ◌∷◌, [], OnOk, IfOk, MatchOption, codes, string_bytes, slice_get, unwrap_or};
ghost use Rattle.std.specs.Fmt.{signed_decimal};
ghost use Rattle.ev_base.specs.SafeScope.{primitives};
ghost use Rattle.def_event.specs.declared.shown.Shown.{Members};
ghost use Rattle.def_event.specs.Lines.{primitive_name, value};
ghost use Rattle.def_text.specs.Quoting.{shortened};
ghost use Rattle.ev_event.specs.Pending.{front, separator, weight, weights, next_weight, open_weight, list_text, next_text, open_text};

use crate::names::{push_name, push_numbered};
use def_event::shown::Shown;
use ev_base::{PrimId, Str};
use ev_text::{push_quoted_character, push_shortened};
use itoa::Buffer;
use std::alloc::{AllocError, Global};

/// The name of a primitive of the safe scope by its number.
fn safe_name(number: u8) -> &'static str
    ensures { result.now ≡ unwrap_or (slice_get primitives number) [] }
{
    match number {
        0 => "__makeList",
        1 => "__equalizer",
        2 => "__comparer",
        3 => "__loop",
        4 => "E",
        5 => "Ref",
        6 => "throw",
        7 => "auditedBy",
        8 => "any",
        9 => "void",
        10 => "int",
        11 => "boolean",
        12 => "char",
        13 => "String",
        14 => "List",
        15 => "nullOk",
        16 => "near",
        17 => "DeepFrozen",
        18 => "Selfless",
        19 => "Functional",
        _ => "",
    }
}

/// Appends the name of a primitive.
fn push_primitive(out: &mut String, primitive: PrimId) -> Result<(), AllocError>
    ensures { OnOk result (string_bytes out.new ≡ string_bytes out.old ++ primitive_name primitive) }
{
    let number = primitive.0;
    if number < 32 {
        out.push_str(safe_name(number))
    } else {
        out.push_str("nullOk:")?;
        out.push_str(safe_name(number - 32))
    }
}

/// Appends an integer.
pub fn push_integer(out: &mut String, number: i128) -> Result<(), AllocError>
    ensures { OnOk result (string_bytes out.new ≡ string_bytes out.old ++ signed_decimal number) }
{
    let mut digits = Buffer::new();
    out.push_str(digits.format(number))
}

/// Appends the problem of a broken reference.
pub fn push_problem(alloc: Global, out: &mut String, problem: &str) -> Result<(), AllocError>
    ensures { OnOk result (string_bytes out.new ≡ string_bytes out.old ++ (codes "broken:" ++ shortened problem.now)) }
{
    out.push_str("broken:")?;
    push_shortened(alloc, out, problem)
}

/// Appends the name of a primitive between angle brackets.
pub fn push_bracketed(out: &mut String, primitive: PrimId) -> Result<(), AllocError>
    ensures { OnOk result (string_bytes out.new ≡ string_bytes out.old ++ 60 ∷ (primitive_name primitive ++ 62 ∷ [])) }
{
    out.push('<')?;
    push_primitive(out, primitive)?;
    out.push('>')
}

/// Appends a value that is no list in a note, and of such a list the bracket.
fn push_front(alloc: Global, out: &mut String, names: &[Str], x: &Shown) -> Result<(), AllocError>
    ensures { OnOk result (string_bytes out.new ≡ string_bytes out.old ++ front names.now x.now) }
{
    match x {
        Shown::Null => out.push_str("null"),
        Shown::Bool(true) => out.push_str("true"),
        Shown::Bool(false) => out.push_str("false"),
        Shown::Int(number) => push_integer(out, *number),
        Shown::Char(c) => push_quoted_character(out, *c),
        Shown::Text(text) => push_shortened(alloc, out, text.as_str()),
        Shown::Broken(problem) => push_problem(alloc, out, problem.as_str()),
        Shown::Prim(primitive) => push_bracketed(out, *primitive),
        Shown::List(host, number) => push_numbered(out, names, *host, '%', *number),
        Shown::Slot(host, number) => push_numbered(out, names, *host, '&', *number),
        Shown::Name(id) => push_name(out, names, id),
        Shown::Members(_) => out.push('['),
    }
}

/// Appends a value that is no list in a note. Of such a list it appends the bracket, and hands out the members.
fn begin_value<'a>(
    alloc: Global,
    out: &mut String,
    names: &[Str],
    x: &'a Shown,
) -> Result<Option<&'a [Shown]>, AllocError>
    ensures { IfOk result (λ begun. MatchOption begun
        ((string_bytes out.new ≡ string_bytes out.old ++ value names.now x.now) × (0 < weight x.now))
        (λ members. (string_bytes out.new ≡ string_bytes out.old ++ 91 ∷ []) × (x.now ≡ Members members.now))) }
{
    push_front(alloc, out, names, x)?;
    match x {
        Shown::Members(members) => Ok(Some(members.as_slice())),
        _ => Ok(None),
    }
}

/// Appends the space before a member that is not the first of its list.
fn push_separator(out: &mut String, behind: bool) -> Result<(), AllocError>
    ensures { OnOk result (string_bytes out.new ≡ string_bytes out.old ++ separator behind) }
{
    if behind { out.push(' ') } else { Ok(()) }
}

/// Goes on with the members of a list: hands out the first of them, or closes the list. A space stands before a member
/// that is not the first of its list.
fn enter<'a>(
    out: &mut String,
    lists: &mut Vec<&'a [Shown]>,
    members: &'a [Shown],
    behind: bool,
) -> Result<Option<&'a Shown>, AllocError>
    ensures text { IfOk result (λ next. (vats : List (List ℕ)) →
        string_bytes out.new ++ (next_text vats next ++ open_text vats lists.new.items)
        ≡ string_bytes out.old ++ (list_text vats behind members.now ++ open_text vats lists.old.items)) }
    ensures less { IfOk result (λ next. next_weight next + open_weight lists.new.items < weights members.now + 1 + open_weight lists.old.items) }
{
    match members.split_first() {
        None => {
            out.push(']')?;
            Ok(None)
        }
        Some((first, more)) => {
            lists.push(more)?;
            push_separator(out, behind)?;
            Ok(Some(first))
        }
    }
}

/// Appends a value. Lists in lists are kept on a stack of their own.
pub(crate) fn push_value(
    alloc: Global,
    out: &mut String,
    names: &[Str],
    x: &Shown,
) -> Result<(), AllocError>
    ensures { OnOk result (string_bytes out.new ≡ string_bytes out.old ++ value names.now x.now) }
{
    let mut lists: Vec<&[Shown]> = Vec::new(alloc);
    let mut next = Some(x);
    loop {
        if let Some(member) = next {
            next = match begin_value(alloc, out, names, member)? {
                None => None,
                Some(members) => enter(out, &mut lists, members, false)?,
            };
        } else {
            let Some(rest) = lists.pop() else {
                return Ok(());
            };
            next = enter(out, &mut lists, rest, true)?;
        }
    }
}
