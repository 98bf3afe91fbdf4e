//! What a line is about, and the hosts of names.

ghost use Rattle.std.specs.Prelude.{◌≡◌, ◌<◌, ◌∷◌, bytes_eq, option_map};
ghost use Rattle.def_see.specs.Words.{is_host, left_message, noted, stands_before, subject};

use crate::kinds::{has, is_act, is_entry, word};
use ev_base::Str;

/// The message of the note that begins at the fifth word.
#[tactic(auto, unfolding(def_see::specs::Words::noted))]
fn noted(words: &[Str]) -> Option<&str>
    ensures { option_map (λ message. message.now) result ≡ noted 4 words.now }
{
    if has(words, 4, "deliver") || has(words, 4, "deliveronly") {
        Some(word(words, 5))
    } else {
        None
    }
}

/// The message that is left.
#[tactic(auto, unfolding(def_see::specs::Words::left_message))]
fn left_message(words: &[Str]) -> Option<&str>
    ensures { option_map (λ message. message.now) result ≡ left_message words.now }
{
    if has(words, 1, "queue") {
        Some(word(words, 3))
    } else if has(words, 1, "link") {
        noted(words)
    } else {
        Some(word(words, 4))
    }
}

/// The message that a line carries, takes, loses or leaves, or the name that it settles or lets wait.
#[tactic(auto, unfolding(def_see::specs::Words::subject))]
pub fn subject(words: &[Str]) -> Option<&str>
    ensures { option_map (λ name. name.now) result ≡ subject words.now }
{
    if is_act(words, "take") {
        Some(word(words, 2))
    } else if has(words, 0, "lost") || has(words, 0, "settle") || has(words, 0, "wait") {
        Some(word(words, 1))
    } else if has(words, 0, "left") {
        left_message(words)
    } else if is_entry(words, "carry") {
        noted(words)
    } else {
        None
    }
}

/// Whether this stands before the first such character.
#[tactic(auto, unfolding(def_see::specs::Words::stands_before))]
fn stands_before(name: &str, mark: char, front: &str) -> bool
    requires { mark < 128 }
    ensures { result ≡ stands_before mark front.now name.now }
{
    match name.split_once(mark) {
        Some((before, _)) => before == front,
        None => false,
    }
}

/// Whether a name is that of a root.
fn is_root(name: &str, vat: &str) -> bool
    ensures { result ≡ bytes_eq name.now (64 ∷ vat.now) }
{
    match name.as_bytes() {
        [] => false,
        [first, rest @ ..] => *first == b'@' && rest == vat.as_bytes(),
    }
}

/// Whether a vat is the host of a name.
#[tactic(auto, unfolding(def_see::specs::Words::is_host))]
pub fn is_host(name: &str, vat: &str) -> bool
    ensures { result ≡ is_host vat.now name.now }
{
    is_root(name, vat)
        || stands_before(name, '?', vat)
        || stands_before(name, '~', vat)
        || stands_before(name, '^', vat)
}
