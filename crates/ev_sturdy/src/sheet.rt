//! What the input of `sturdy` says.

ghost use Rattle.std.specs.Prelude.{◌≡◌, IfOk, drop, map, option_map};
ghost use Rattle.ev_script.specs.Json.{each};
ghost use Rattle.ev_script.specs.Script.{Reads};
ghost use Rattle.ev_text.specs.Lines.{number, spelled_number};
ghost use Rattle.ev_sturdy.specs.Sheet.{alone, commands, first_line, key_of, line_of, most_object, read, sheet_of, side_of, told, use_of};

use crate::Side;
use ev_base::{Memory, Seq};
use ev_script::ScriptFault;
use ev_text::{bytes_32, lines, number, spelled_number, split, text_of};
use std::alloc::Global;

/// The greatest number of an object.
const MOST_OBJECT: u64 = 65535;

/// The greatest number of a connection, and of a place in one.
const MOST_NUMBER: u64 = 4294967295;

/// What a line asks for.
#[derive(Clone, Copy, PartialEq, Eq)]
pub enum Line {
    /// An object of this number is registered.
    Register(u32),
    Connect,
    /// A number is shown.
    Show(u128),
    /// The reference of a connection at a place is used.
    Use(u64, u64),
    Cut,
    Notice(Side),
}

/// A key, and what is done.
#[derive(Drop)]
pub struct Sheet {
    /// The key of the draws.
    pub key: [u8; 32],
    pub lines: Seq<Line>,
}

fn side_of(word: &str) -> Option<Side>
    ensures { result ≡ side_of word.now }
{
    match word {
        "host" => Some(Side::Host),
        "guest" => Some(Side::Guest),
        _ => None,
    }
}

/// What a line of one word asks for.
fn alone(word: &str) -> Option<Line>
    ensures { result ≡ alone word.now }
{
    match word {
        "connect" => Some(Line::Connect),
        "cut" => Some(Line::Cut),
        _ => None,
    }
}

fn register_of(rest: &str) -> Option<Line>
    ensures { result ≡ option_map Line.Register (number most_object rest.now) }
{
    let object = number(rest, MOST_OBJECT)?;
    Some(Line::Register(object as u32))
}

fn show_of(rest: &str) -> Option<Line>
    ensures { result ≡ option_map Line.Show (spelled_number rest.now) }
{
    Some(Line::Show(spelled_number(rest)?))
}

fn use_of(rest: &str) -> Option<Line>
    ensures { result ≡ use_of rest.now }
{
    let (first, second) = split(rest)?;
    let generation = number(first, MOST_NUMBER)?;
    let place = number(second, MOST_NUMBER)?;
    Some(Line::Use(generation, place))
}

fn notice_of(rest: &str) -> Option<Line>
    ensures { result ≡ option_map Line.Notice (side_of rest.now) }
{
    Some(Line::Notice(side_of(rest)?))
}

/// What a word and the text behind it ask for.
fn told(word: &str, rest: &str) -> Option<Line>
    ensures { result ≡ told word.now rest.now }
{
    match word {
        "register" => register_of(rest),
        "show" => show_of(rest),
        "use" => use_of(rest),
        "notice" => notice_of(rest),
        _ => None,
    }
}

/// What a line asks for, where it is a command.
fn line_of(text: &str) -> Option<Line>
    ensures { result ≡ line_of text.now }
{
    match split(text) {
        None => alone(text),
        Some((word, rest)) => told(word, rest),
    }
}

/// The key that a line tells.
fn key_of(text: &str) -> Option<[u8; 32]>
    ensures { result ≡ key_of text.now }
{
    let (word, rest) = split(text)?;
    if word == "key" { bytes_32(rest) } else { None }
}

/// The text before the first line feed.
fn first_line(text: &str) -> &str
    ensures { result.now ≡ first_line text.now }
{
    match text.split_once('\n') {
        Some((line, _)) => line,
        None => text,
    }
}

/// What the lines ask for, where each is a command.
fn each_line(alloc: Global, texts: &[&str]) -> Result<Option<Seq<Line>>, Memory>
    ensures { IfOk result (λ found. found ≡ each line_of (map (λ text. text.now) texts.now)) }
{
    let mut found = Seq::new(alloc);
    for text in texts {
        let Some(line) = line_of(text) else {
            return Ok(None);
        };
        found.push(line)?;
    }
    Ok(Some(found))
}

/// What the lines behind the first ask for.
fn each_line_behind(alloc: Global, texts: &[&str]) -> Result<Option<Seq<Line>>, Memory>
    ensures { IfOk result (λ found. found ≡ each line_of (drop 1 (map (λ text. text.now) texts.now))) }
{
    match texts {
        [] => Ok(Some(Seq::new(alloc))),
        [_, behind @ ..] => each_line(alloc, behind),
    }
}

/// What the lines of a text behind the first ask for, where each ends with a line feed and is a command.
fn commands(alloc: Global, text: &str) -> Result<Option<Seq<Line>>, Memory>
    ensures { IfOk result (λ found. found ≡ commands text.now) }
{
    let Some(texts) = lines(alloc, text)? else {
        return Ok(None);
    };
    each_line_behind(alloc, texts.as_slice())
}

/// The sheet of a text.
fn sheet_of(alloc: Global, text: &str) -> Result<Sheet, ScriptFault>
    ensures { Reads result (sheet_of text.now) }
{
    let Some(key) = key_of(first_line(text)) else {
        return Err(ScriptFault::Rule(22));
    };
    let Some(lines) = commands(alloc, text)? else {
        return Err(ScriptFault::Rule(23));
    };
    Ok(Sheet { key, lines })
}

/// The sheet that bytes are, or the first rule that they break: 21 where they are not UTF-8, 22 where their first line tells
/// no key, and 23 where another line is no command or the last one does not end.
pub fn read_sheet(alloc: Global, bytes: &[u8]) -> Result<Sheet, ScriptFault>
    ensures { Reads result (read bytes.now) }
{
    match text_of(bytes) {
        None => Err(ScriptFault::Rule(21)),
        Some(text) => sheet_of(alloc, text),
    }
}
