//! The names that programs are given.

ghost use Rattle.std.specs.Prelude.{◌≡◌, ◌++◌, IfOk, map};
ghost use Rattle.ev_top.specs.Programs.{name_of, names_for, safe_names};

use ev_base::{Memory, Seq, Str, VatId};
use ev_script::VatScript;
use std::alloc::Global;

/// The names of the safe scope.
const SAFE_NAMES: [&str; 23] = [
    "null",
    "true",
    "false",
    "__makeList",
    "__equalizer",
    "__comparer",
    "__loop",
    "E",
    "Ref",
    "throw",
    "auditedBy",
    "any",
    "void",
    "int",
    "boolean",
    "char",
    "String",
    "List",
    "nullOk",
    "near",
    "DeepFrozen",
    "Selfless",
    "Functional",
];

/// Copies of these texts.
fn copies_of(alloc: Global, texts: &[&str]) -> Result<Seq<Str>, Memory>
    ensures { IfOk result (λ copies. copies ≡ map (λ text. text.now) texts.now) }
{
    let mut copies = Seq::new(alloc);
    for text in texts {
        copies.push(Str::copy_of(alloc, text)?)?;
    }
    Ok(copies)
}

/// The names that every program is given.
pub fn safe_names(alloc: Global) -> Result<Seq<Str>, Memory>
    ensures { IfOk result (λ names. names ≡ safe_names) }
{
    copies_of(alloc, &SAFE_NAMES)
}

/// The name of the vat of that number.
pub fn name_of(vats: &[VatScript], vat: VatId) -> &str
    ensures { result.now ≡ name_of vats.now vat }
{
    match vats.get(vat.0 as usize) {
        Some(found) => found.name.as_str(),
        None => "",
    }
}

/// The names that the program of one of these vats is given.
pub fn names_for(alloc: Global, vats: &[VatScript], vat: &VatScript) -> Result<Seq<Str>, Memory>
    ensures { IfOk result (λ names. names ≡ names_for vats.now vat.now) }
{
    let mut names = safe_names(alloc)?;
    for known in vat.knows.as_slice() {
        names.push(Str::copy_of(alloc, name_of(vats, *known))?)?;
    }
    Ok(names)
}
