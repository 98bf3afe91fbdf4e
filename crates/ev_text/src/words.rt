//! Which words are identifiers.

ghost use Rattle.std.specs.Prelude.{◌≡◌, ◌&&◌, ◌||◌, ◌==◌, ◌++◌, OnOk, string_bytes, chars};
ghost use Rattle.std.specs.List.{list_all};
ghost use Rattle.def_text.specs.Keywords.{is_identifier, is_keyword, begins_identifier, continues_identifier, has_identifier_form, printed_verb};

use crate::texts::push_quoted;
use std::alloc::AllocError;

/// Whether the word is a keyword of E.
pub fn is_keyword(word: &str) -> bool
    ensures { result ≡ is_keyword word.now }
{
    matches!(
        word,
        "break"
            | "catch"
            | "continue"
            | "def"
            | "else"
            | "escape"
            | "exit"
            | "finally"
            | "fn"
            | "for"
            | "if"
            | "implements"
            | "in"
            | "match"
            | "method"
            | "return"
            | "to"
            | "try"
            | "var"
            | "via"
            | "when"
            | "while"
    )
}

/// Whether an identifier may begin with the character.
pub fn begins_identifier(c: char) -> bool
    ensures { result ≡ begins_identifier c }
{
    unicode_ident::is_xid_start(c) || c == '_'
}

/// Whether an identifier may go on with the character.
pub fn continues_identifier(c: char) -> bool
    ensures { result ≡ continues_identifier c }
{
    unicode_ident::is_xid_continue(c)
}

/// Whether an identifier may go on with the text.
#[tactic(auto, using(std::proofs::lemmas::Str::chars_from_encodes))]
fn all_continue(text: &str) -> bool
    ensures { result ≡ list_all continues_identifier (chars text.now) }
{
    text.chars().all(continues_identifier)
}

/// Whether the word begins and goes on as an identifier does.
#[tactic(auto, using(std::proofs::lemmas::Str::chars_past_char))]
fn has_identifier_form(word: &str) -> bool
    ensures { result ≡ has_identifier_form (chars word.now) }
{
    let mut rest = word.chars();
    match rest.next() {
        None => false,
        Some(first) => begins_identifier(first) && all_continue(rest.as_str()),
    }
}

/// Whether the word is an identifier: it has the form of one, and is neither a keyword nor a lone `_`.
pub fn is_identifier(word: &str) -> bool
    ensures { result ≡ is_identifier word.now }
{
    has_identifier_form(word) && !is_keyword(word) && word != "_"
}

/// Appends a verb: bare where it is an identifier, else between `"`.
pub fn push_verb(out: &mut String, verb: &str) -> Result<(), AllocError>
    ensures { OnOk result (string_bytes out.new ≡ string_bytes out.old ++ printed_verb verb.now) }
{
    if is_identifier(verb) {
        out.push_str(verb)
    } else {
        push_quoted(out, verb)
    }
}
