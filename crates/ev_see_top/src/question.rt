//! What the words of the command ask.

ghost use Rattle.std.specs.Prelude.{◌≡◌};
ghost use Rattle.ev_see_top.specs.Asked.{question_of, word_asks, words_ask};

use ev_base::Str;

/// What is asked.
#[derive(Clone, Copy)]
pub enum Question {
    /// `--help`
    Help,
    /// `--version`
    Version,
    /// `messages`
    Messages,
    /// `draw`
    Draw,
    /// `why`
    Why,
    /// `why --strict`
    Strict,
    /// Other words.
    Unknown,
}

/// What one word asks.
#[tactic(auto, unfolding(crate::specs::Asked::word_asks))]
fn word_asks(word: &str) -> Question
    ensures { result ≡ word_asks word.now }
{
    if word == "--help" {
        Question::Help
    } else if word == "--version" {
        Question::Version
    } else if word == "messages" {
        Question::Messages
    } else if word == "draw" {
        Question::Draw
    } else if word == "why" {
        Question::Why
    } else {
        Question::Unknown
    }
}

/// What two words ask.
#[tactic(auto, unfolding(crate::specs::Asked::words_ask))]
fn words_ask(first: &str, second: &str) -> Question
    ensures { result ≡ words_ask first.now second.now }
{
    if first == "why" && second == "--strict" {
        return Question::Strict;
    }
    Question::Unknown
}

/// What the words of a command ask.
#[tactic(auto, unfolding(crate::specs::Asked::question_of))]
pub fn question_of(words: &[Str]) -> Question
    ensures { result ≡ question_of words.now }
{
    match words {
        [word] => word_asks(word.as_str()),
        [first, second] => words_ask(first.as_str(), second.as_str()),
        _ => Question::Unknown,
    }
}
