//! The names of vats in the order in which they first stand in a text.

ghost use Rattle.std.specs.Prelude.{◌≡◌, ◌≤◌, ◌&&◌, ◌||◌, ◌==◌, ℕ, true, false, List, [], ◌∷◌, OnOk, IfOk, flat_map, length, string_bytes};
ghost use Rattle.ev_trace_words.specs.Words.{is_outside};
ghost use Rattle.std.specs.List.{list_all};
ghost use Rattle.ev_script.specs.Vats.{begins_lower, is_lower_or_digit, is_vat_name};
ghost use Rattle.ev_trace_words.specs.declared.words.Quote.TheVariants.{Outside};
ghost use Rattle.ev_trace.specs.Naming.{bare, ends_name, entry_vats, host_vats, is_mark, left_vats, line_vats, name_then_vats, names_in, note_vats, only_if, pair_vats, scan, scanned, with_name, with_names};

use ev_base::{Memory, Seq, Str, safe_value};
use ev_text::is_keyword;
use ev_trace_words::parts::{count, vat};
use ev_trace_words::words::{Quote, behind_quote, is_outside};
use std::alloc::Global;

fn begins_lower(bytes: &[u8]) -> bool
    ensures { result ≡ begins_lower bytes.now }
{
    match bytes {
        [] => false,
        [first, ..] => first.is_ascii_lowercase(),
    }
}

fn is_lower_or_digit(byte: u8) -> bool
    ensures { result ≡ is_lower_or_digit byte }
{
    byte.is_ascii_lowercase() || byte.is_ascii_digit()
}

fn are_lower_or_digits(bytes: &[u8]) -> bool
    ensures { result ≡ list_all is_lower_or_digit bytes.now }
{
    bytes.iter().all(|byte| is_lower_or_digit(*byte))
}

/// Whether a vat may have the name.
fn is_vat_name(word: &str) -> bool
    ensures { result ≡ is_vat_name word.now }
{
    word.len() <= 16
        && begins_lower(word.as_bytes())
        && are_lower_or_digits(word.as_bytes())
        && !is_keyword(word)
        && safe_value(word).is_none()
}

/// Whether the name of a vat stands before such a byte.
fn is_mark(byte: u8) -> bool
    ensures { result ≡ is_mark byte }
{
    byte == b'.'
        || byte == b'~'
        || byte == b'?'
        || byte == b'^'
        || byte == b'%'
        || byte == b'&'
        || byte == b'/'
}

/// Adds a name at the end where it stands there for the first time. More than 17 are not counted.
fn add_name(alloc: Global, names: &mut Seq<Str>, word: &str) -> Result<(), Memory>
    ensures { OnOk result (names.new ≡ with_name names.old word.now) }
{
    if names.len() > 16 || !is_vat_name(word) {
        return Ok(());
    }
    match vat(names.as_slice(), word) {
        Some(_) => Ok(()),
        None => names.push(Str::copy_of(alloc, word)?),
    }
}

/// Adds a run that was read, where it is the name of a vat by where it stands.
#[tactic(auto, unfolding(crate::specs::Naming::with_names))]
fn add_only_if(alloc: Global, names: &mut Seq<Str>, is_name: bool, run: &str) -> Result<(), Memory>
    ensures { OnOk result (names.new ≡ with_names names.old (only_if is_name run.now)) }
{
    if is_name {
        add_name(alloc, names, run)
    } else {
        Ok(())
    }
}

/// What was read of a word: where the next byte stands, whether the run before it stands behind `@`, whether it stands behind
/// `^`, as the provider of a gift does, and that run.
#[derive(Drop)]
struct Scanner {
    quote: Quote,
    rooted: bool,
    provides: bool,
    run: String,
}

/// Whether the byte belongs to a run of small letters and digits.
fn is_of_run(quote: Quote, byte: u8) -> bool
    ensures { result ≡ (is_outside quote && is_lower_or_digit byte) }
{
    is_outside(quote) && is_lower_or_digit(byte)
}

/// Whether a run that this byte ends is the name of a vat.
fn ends_name(quote: Quote, rooted: bool, provides: bool, byte: u8) -> bool
    ensures { result ≡ (is_outside quote && ends_name rooted provides byte) }
{
    is_outside(quote) && (provides && byte == b':' || (rooted || is_mark(byte)))
}

/// Whether the name of a vat stands behind this byte.
fn is_root(quote: Quote, byte: u8) -> bool
    ensures { result ≡ (is_outside quote && byte == 64) }
{
    is_outside(quote) && byte == b'@'
}

/// Whether the number or the provider of a gift stands behind this byte.
fn is_gift(quote: Quote, byte: u8) -> bool
    ensures { result ≡ (is_outside quote && byte == 94) }
{
    is_outside(quote) && byte == b'^'
}

/// Reads a byte of a run.
fn with_byte(at: Scanner, byte: u8) -> Result<Scanner, Memory>
    requires { (is_outside at.quote && is_lower_or_digit byte) ≡ true }
    ensures { IfOk result (λ next. (names : List (List ℕ)) (bs : List ℕ)
        → with_names names (scan next.quote next.rooted next.provides (string_bytes next.run) bs) ≡ with_names names (scan at.quote at.rooted at.provides (string_bytes at.run) (byte ∷ bs))) }
{
    let Scanner {
        quote,
        rooted,
        provides,
        mut run,
    } = at;
    run.push(char::from(byte))?;
    Ok(Scanner {
        quote,
        rooted,
        provides,
        run,
    })
}

/// Reads a byte that ends a run, and adds the run where it is a name.
fn ended_by(alloc: Global, names: &mut Seq<Str>, at: Scanner, byte: u8) -> Result<Scanner, Memory>
    requires { (is_outside at.quote && is_lower_or_digit byte) ≡ false }
    ensures { IfOk result (λ next. (bs : List ℕ)
        → with_names names.new (scan next.quote next.rooted next.provides (string_bytes next.run) bs) ≡ with_names names.old (scan at.quote at.rooted at.provides (string_bytes at.run) (byte ∷ bs))) }
{
    let is_name = ends_name(at.quote, at.rooted, at.provides, byte);
    add_only_if(alloc, names, is_name, at.run.as_str())?;
    Ok(Scanner {
        quote: behind_quote(at.quote, char::from(byte)),
        rooted: is_root(at.quote, byte),
        provides: is_gift(at.quote, byte),
        run: String::new(alloc),
    })
}

/// Reads a byte of a word.
fn scan_byte(alloc: Global, names: &mut Seq<Str>, at: Scanner, byte: u8) -> Result<Scanner, Memory>
    ensures { IfOk result (λ next. (bs : List ℕ)
        → with_names names.new (scan next.quote next.rooted next.provides (string_bytes next.run) bs) ≡ with_names names.old (scan at.quote at.rooted at.provides (string_bytes at.run) (byte ∷ bs))) }
{
    if is_of_run(at.quote, byte) {
        with_byte(at, byte)
    } else {
        ended_by(alloc, names, at, byte)
    }
}

/// Adds the names of vats in a word. `rooted` says that the word begins with one.
fn add_scanned(alloc: Global, names: &mut Seq<Str>, rooted: bool, word: &str) -> Result<(), Memory>
    ensures { OnOk result (names.new ≡ with_names names.old (scan Outside rooted false [] word.now)) }
{
    let mut at = Scanner {
        quote: Quote::Outside,
        rooted,
        provides: false,
        run: String::new(alloc),
    };
    for byte in word.as_bytes() {
        at = scan_byte(alloc, names, at, *byte)?;
    }
    add_only_if(alloc, names, at.rooted, at.run.as_str())?;
    Ok(())
}

/// Adds the names of vats in the words of values.
fn add_values(alloc: Global, names: &mut Seq<Str>, words: &[Str]) -> Result<(), Memory>
    ensures { OnOk result (names.new ≡ with_names names.old (scanned words.now)) }
{
    for word in words {
        add_scanned(alloc, names, false, word.as_str())?;
    }
    Ok(())
}

/// Adds the names of vats that stand bare.
fn add_bare(alloc: Global, names: &mut Seq<Str>, words: &[Str]) -> Result<(), Memory>
    ensures { OnOk result (names.new ≡ with_names names.old (bare words.now)) }
{
    for word in words {
        add_scanned(alloc, names, true, word.as_str())?;
    }
    Ok(())
}

#[tactic(auto, using(crate::proofs::NamingLemmas::both, crate::proofs::NamingLemmas::three), unfolding(crate::specs::Naming::with_names))]
fn add_name_then_vats(alloc: Global, names: &mut Seq<Str>, words: &[Str]) -> Result<(), Memory>
    ensures { OnOk result (names.new ≡ with_names names.old (name_then_vats words.now)) }
{
    match words {
        [] => Ok(()),
        [name, rest @ ..] => {
            add_scanned(alloc, names, false, name.as_str())?;
            add_bare(alloc, names, rest)?;
            Ok(())
        }
    }
}

#[tactic(auto, using(crate::proofs::NamingLemmas::both, crate::proofs::NamingLemmas::three), unfolding(crate::specs::Naming::with_names))]
fn add_note(alloc: Global, names: &mut Seq<Str>, words: &[Str]) -> Result<(), Memory>
    ensures { OnOk result (names.new ≡ with_names names.old (note_vats words.now)) }
{
    match words {
        [] => Ok(()),
        [kind, rest @ ..] => {
            if kind.as_str() == "elsewhere" || kind.as_str() == "ask" {
                add_name_then_vats(alloc, names, rest)
            } else {
                add_values(alloc, names, rest)
            }
        }
    }
}

#[tactic(auto, using(crate::proofs::NamingLemmas::both, crate::proofs::NamingLemmas::three), unfolding(crate::specs::Naming::with_names))]
fn add_pair(alloc: Global, names: &mut Seq<Str>, words: &[Str]) -> Result<(), Memory>
    ensures { OnOk result (names.new ≡ with_names names.old (pair_vats words.now)) }
{
    match words {
        [from, to, rest @ ..] => {
            add_scanned(alloc, names, true, from.as_str())?;
            add_scanned(alloc, names, true, to.as_str())?;
            add_note(alloc, names, rest)?;
            Ok(())
        }
        _ => add_bare(alloc, names, words),
    }
}

#[tactic(auto, using(crate::proofs::NamingLemmas::both, crate::proofs::NamingLemmas::three), unfolding(crate::specs::Naming::with_names))]
fn add_host(alloc: Global, names: &mut Seq<Str>, words: &[Str]) -> Result<(), Memory>
    ensures { OnOk result (names.new ≡ with_names names.old (host_vats words.now)) }
{
    match words {
        [] => Ok(()),
        [host, rest @ ..] => {
            add_scanned(alloc, names, true, host.as_str())?;
            add_values(alloc, names, rest)?;
            Ok(())
        }
    }
}

#[tactic(auto, using(crate::proofs::NamingLemmas::both, crate::proofs::NamingLemmas::three), unfolding(crate::specs::Naming::with_names))]
fn add_left(alloc: Global, names: &mut Seq<Str>, words: &[Str]) -> Result<(), Memory>
    ensures { OnOk result (names.new ≡ with_names names.old (left_vats words.now)) }
{
    match words {
        [] => Ok(()),
        [word, rest @ ..] => {
            if word.as_str() == "link" {
                add_pair(alloc, names, rest)
            } else {
                add_host(alloc, names, rest)
            }
        }
    }
}

#[tactic(auto, using(crate::proofs::NamingLemmas::both, crate::proofs::NamingLemmas::three), unfolding(crate::specs::Naming::with_names))]
fn add_entry(alloc: Global, names: &mut Seq<Str>, words: &[Str]) -> Result<(), Memory>
    ensures { OnOk result (names.new ≡ with_names names.old (entry_vats words.now)) }
{
    match words {
        [] => Ok(()),
        [_, rest @ ..] => add_pair(alloc, names, rest),
    }
}

/// Adds the names of vats in a line.
#[tactic(auto, using(crate::proofs::NamingLemmas::both, crate::proofs::NamingLemmas::three), unfolding(crate::specs::Naming::with_names))]
fn add_line(alloc: Global, names: &mut Seq<Str>, words: &[Str]) -> Result<(), Memory>
    ensures { OnOk result (names.new ≡ with_names names.old (line_vats words.now)) }
{
    match words {
        [] => Ok(()),
        [word, rest @ ..] => {
            if word.as_str() == "open" {
                add_bare(alloc, names, rest)
            } else if word.as_str() == "left" {
                add_left(alloc, names, rest)
            } else if count(word.as_str()).is_some() {
                add_entry(alloc, names, rest)
            } else {
                add_values(alloc, names, rest)
            }
        }
    }
}

/// The names of the vats in lines, in the order in which they first stand there. More than 17 are not counted.
pub(crate) fn names_in(alloc: Global, lines: &[Seq<Str>]) -> Result<Seq<Str>, Memory>
    ensures { IfOk result (λ names. names ≡ names_in lines.now) }
{
    let mut names = Seq::new(alloc);
    for line in lines {
        add_line(alloc, &mut names, line.as_slice())?;
    }
    Ok(names)
}
