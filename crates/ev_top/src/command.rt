//! The commands.

ghost use Rattle.std.specs.Prelude.{◌≡◌};
ghost use Rattle.ev_top.specs.Commands.{command_alone, command_of, command_of_number, command_of_run, command_of_sum, command_with, reads};

use ev_base::{Seq, Str};
use ev_text::number;

/// The greatest number of a script that is generated.
const MOST_GENERATED: u64 = 3000;

/// What a call is asked to do.
#[derive(Clone, Copy, PartialEq, Eq)]
pub enum Command {
    /// Runs a script. What is told has the frames where `wire` asks for them.
    Run { wire: bool },
    /// Writes the form of a program's kernel tree.
    Expand,
    /// Writes the script that is generated for a number. It reads nothing.
    Generate(u32),
    /// Runs the script that is generated for a number, and writes a summary of its run. It reads nothing.
    Sum(u32),
    /// Answers lines on sturdy references.
    Sturdy,
    /// Answers lines on brands and mints.
    Mint,
    /// Judges the text of a run.
    Check,
}

/// The command that a word is.
fn command_alone(word: &str) -> Option<Command>
    ensures { result ≡ command_alone word.now }
{
    match word {
        "run" => Some(Command::Run { wire: false }),
        "expand" => Some(Command::Expand),
        "sturdy" => Some(Command::Sturdy),
        "mint" => Some(Command::Mint),
        "check" => Some(Command::Check),
        _ => None,
    }
}

/// The run that the word behind `run` asks for.
fn command_of_run(next: &str) -> Option<Command>
    ensures { result ≡ command_of_run next.now }
{
    match next {
        "wire" => Some(Command::Run { wire: true }),
        _ => None,
    }
}

/// The command that the word behind `gen` asks for.
fn command_of_number(next: &str) -> Option<Command>
    ensures { result ≡ command_of_number next.now }
{
    let count = number(next, MOST_GENERATED)?;
    Some(Command::Generate(count as u32))
}

/// The command that the word behind `sum` asks for.
fn command_of_sum(next: &str) -> Option<Command>
    ensures { result ≡ command_of_sum next.now }
{
    let count = number(next, MOST_GENERATED)?;
    Some(Command::Sum(count as u32))
}

/// The command that two words are.
fn command_with(word: &str, next: &str) -> Option<Command>
    ensures { result ≡ command_with word.now next.now }
{
    match word {
        "run" => command_of_run(next),
        "gen" => command_of_number(next),
        "sum" => command_of_sum(next),
        _ => None,
    }
}

/// The command that words are, if they are one.
pub fn command_of(words: &Seq<Str>) -> Option<Command>
    ensures { result ≡ command_of words.now }
{
    match words.as_slice() {
        [word] => command_alone(word.as_str()),
        [word, next] => command_with(word.as_str(), next.as_str()),
        _ => None,
    }
}

/// Whether a command reads what the source has.
pub fn reads(command: Command) -> bool
    ensures { result ≡ reads command }
{
    match command {
        Command::Generate(_) | Command::Sum(_) => false,
        Command::Run { .. } | Command::Expand | Command::Sturdy | Command::Mint | Command::Check =>
            true,
    }
}
