//! Frames that are read, written again and taken apart, as rows say.

use crate::rows::*;
use def_op::{Desc, Op, Plain, Resolved};
use ev_op::{decode, encode};
use ev_parts::parts;
use std::alloc::Global;

/// Adds the bytes that a word spells.
fn push_word(alloc: Global, word: &str, bytes: &mut Vec<u8>) -> Option<()> {
    let (digits, count) = match word.split_once('*') {
        Some((digits, count)) => (digits, count.parse::<u32>().ok()?),
        None => (word, 1),
    };
    let part = hex::decode(alloc, digits).ok()?;
    for _ in 0..count {
        bytes.extend_from_slice(part.as_slice()).ok()?;
    }
    Some(())
}

/// Adds the bytes that words spell.
fn push_words(alloc: Global, words: &str, bytes: &mut Vec<u8>) -> Option<()> {
    for word in words.split(' ') {
        push_word(alloc, word, bytes)?;
    }
    Some(())
}

fn plain(data: &Plain) -> (&'static str, i128) {
    match data {
        Plain::Null => ("null", 0),
        Plain::Bool(false) => ("false", 0),
        Plain::Bool(true) => ("true", 0),
        Plain::Int(integer) => ("int", *integer),
        Plain::Char(_) => ("char", 0),
        Plain::Text(text) => ("text", text.len() as i128),
        Plain::Prim(prim) => ("prim", i128::from(prim.0)),
    }
}

/// The kind of a description, and its number or length, if it has one.
fn kind(desc: &Desc) -> (&'static str, i128) {
    match desc {
        Desc::Plain(data) => plain(data),
        Desc::ListOf(members) => ("list", members.len() as i128),
        Desc::Broken(problem) => ("broken", problem.len() as i128),
        Desc::YourExport(position) => ("your export", i128::from(*position)),
        Desc::YourAnswer(question) => ("your answer", i128::from(*question)),
        Desc::MyExport(position) => ("my export", i128::from(*position)),
        Desc::MyPromise(position) => ("my promise", i128::from(*position)),
        Desc::Third { host, .. } => ("gift", i128::from(host.0)),
        Desc::MyAnswer(question) => ("my answer", i128::from(*question)),
    }
}

/// What rows tell of an operation.
fn subject(op: &Op) -> (&'static str, i128) {
    match op {
        Op::Resolve { to, .. } => match to {
            Resolved::To(desc) => kind(desc),
            Resolved::Elsewhere(vat) => ("elsewhere", i128::from(vat.0)),
        },
        Op::Deliver { args, .. } | Op::DeliverOnly { args, .. } => match args.as_slice().last() {
            Some(desc) => kind(desc),
            None => ("nothing", 0),
        },
        Op::Provide { .. } => ("provide", 0),
        Op::Accept { provider, .. } => ("accept", i128::from(provider.0)),
        Op::Shorten { .. } => ("shorten", 0),
    }
}

/// What rows tell of a frame that is one whole operation and is written as it was read.
fn whole(alloc: Global, frame: &[u8]) -> Option<(&'static str, i128)> {
    let (op, length) = decode(alloc, frame).ok()??;
    let again = encode(alloc, &op).ok()?;
    if length == frame.len() as u64 && again.as_slice() == frame {
        Some(subject(&op))
    } else {
        None
    }
}

/// What rows tell of a frame. Memory ran out, or reading and taking apart disagree, where it is nothing.
fn told(alloc: Global, frame: &[u8]) -> Option<String> {
    let found = parts(alloc, frame).ok()?;
    let count = found.spots.len();
    match (whole(alloc, frame), found.stop) {
        (Some((kind, number)), None) => format!(in alloc; "{kind} {number}").ok(),
        (None, Some(place)) => format!(in alloc; "{count} at {place}").ok(),
        _ => None,
    }
}

/// Whether a row behind a front comes true.
fn comes_true(alloc: Global, front: &str, row: &str) -> Option<bool> {
    let (words, due) = row.split_once(" = ")?;
    let mut frame = Vec::new(alloc);
    push_words(alloc, front, &mut frame)?;
    push_words(alloc, words, &mut frame)?;
    Some(told(alloc, frame.as_slice())?.as_str() == due)
}

/// The first of the rows behind a front that does not come true.
fn first_wrong<'a>(alloc: Global, front: &str, rows: &'a str) -> Option<&'a str> {
    for row in rows.split('\n') {
        if comes_true(alloc, front, row) != Some(true) {
            return Some(row);
        }
    }
    None
}

#[test]
fn frames(rt: HostRuntime) {
    for (front, rows) in [
        (FRONTS[0], DESCRIPTIONS),
        (FRONTS[1], DESCRIPTIONS),
        (FRONTS[2], DESCRIPTIONS),
        (FRONTS[3], DESCRIPTIONS),
        (FRONTS[0], OUTCOMES),
        (FRONTS[0], LONGER),
        (FRONTS[0], FAULTY),
        (FRONTS[0], LIMITS),
        ("0100090000", ARGUMENTS),
        ("", FRAMES),
    ] {
        assert_eq!(rt; first_wrong(rt.alloc(), front, rows), None);
    }
}
