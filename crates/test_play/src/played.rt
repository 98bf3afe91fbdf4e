//! What texts are read as, as a table says.

use crate::rows::{
    ROWS_0, ROWS_1, ROWS_2, ROWS_3, ROWS_4, ROWS_5, ROWS_6, ROWS_7, ROWS_8, ROWS_9, Row,
};
use ev_base::VatId;
use ev_play::{Doing, Play, read_play};
use ev_script::{Entry, ScriptFault};
use std::alloc::Global;
use std::fmt::Write;

/// Adds a sign and the vats behind it.
fn add_pair(out: &mut String, sign: char, from: VatId, to: VatId) -> Option<()> {
    write!(out, "{sign}{}-{}", from.0, to.0).ok()
}

fn add_entry(out: &mut String, entry: Entry) -> Option<()> {
    match entry {
        Entry::Turn(vat) => write!(out, "t{}", vat.0).ok(),
        Entry::Carry(from, to) => add_pair(out, 'c', from, to),
        Entry::Cut(from, to) => add_pair(out, 'x', from, to),
        Entry::Notice(from, to) => add_pair(out, 'n', from, to),
    }
}

fn add_doing(alloc: Global, out: &mut String, doing: &Doing) -> Option<()> {
    match doing {
        Doing::Does(entry) => add_entry(out, *entry),
        Doing::Inject { from, to, bytes } => {
            add_pair(out, 'i', *from, *to)?;
            let digits = hex::encode(alloc, bytes.as_slice()).ok()?;
            write!(out, ":{}", digits.as_str()).ok()
        }
    }
}

/// The hostile vats and what is done, each with its sign and a space behind it.
fn shown(alloc: Global, play: &Play) -> Option<String> {
    let mut out = String::new(alloc);
    for vat in play.hostile.as_slice() {
        write!(out, "h{} ", vat.0).ok()?;
    }
    for doing in play.doings.as_slice() {
        add_doing(alloc, &mut out, doing)?;
        out.push(' ').ok()?;
    }
    Some(out)
}

/// Whether a text is read as its row says, and nothing where memory ran out.
fn is_so(alloc: Global, row: &Row) -> Option<bool> {
    match read_play(alloc, row.text.as_bytes()) {
        Ok(play) => {
            let text = shown(alloc, &play)?;
            Some(row.rule == 0 && text.as_str() == row.play)
        }
        Err(ScriptFault::Rule(rule)) => Some(rule == row.rule),
        Err(ScriptFault::Memory) => None,
    }
}

/// A text in which a frame of so many bytes is injected.
fn injecting(alloc: Global, count: usize) -> Option<String> {
    let mut text = String::new(alloc);
    text.push_str("{\"key\": \"").ok()?;
    for _ in 0..64 {
        text.push('0').ok()?;
    }
    text.push_str(
        "\", \"vats\": [{\"name\": \"h\", \"knows\": [], \"source\": \"\"}, {\"name\": \"a\", \"knows\": [], \"source\": \"1\"}]",
    ).ok()?;
    text.push_str(", \"hostile\": [\"h\"], \"schedule\": [\"inject h a ")
        .ok()?;
    for _ in 0..count {
        text.push_str("0f").ok()?;
    }
    text.push_str("\"]}").ok()?;
    Some(text)
}

/// Whether a frame of so many bytes is read as that many, and nothing where memory ran out.
fn is_injected(alloc: Global, count: usize) -> Option<bool> {
    let text = injecting(alloc, count)?;
    match read_play(alloc, text.as_bytes()) {
        Ok(play) => match play.doings.as_slice() {
            [Doing::Inject { from, to, bytes }] => {
                let all = bytes.as_slice().iter().all(|byte| *byte == 15);
                Some(*from == VatId(0) && *to == VatId(1) && bytes.len() == count && all)
            }
            _ => Some(false),
        },
        Err(ScriptFault::Rule(rule)) => Some(rule == 9 && (count == 0 || count > 4096)),
        Err(ScriptFault::Memory) => None,
    }
}

#[test]
fn long_frames_are_read(rt: HostRuntime) {
    for count in [0, 1, 4095, 4096, 4097] {
        assert_eq!(rt;
            is_injected(rt.alloc(), count),
            Some(true),
            "of {count} bytes"
        );
    }
}

#[test]
fn texts_are_read_0(rt: HostRuntime) {
    for row in &ROWS_0 {
        assert_eq!(rt; is_so(rt.alloc(), row), Some(true), "at {}", row.text);
    }
}

#[test]
fn texts_are_read_1(rt: HostRuntime) {
    for row in &ROWS_1 {
        assert_eq!(rt; is_so(rt.alloc(), row), Some(true), "at {}", row.text);
    }
}

#[test]
fn texts_are_read_2(rt: HostRuntime) {
    for row in &ROWS_2 {
        assert_eq!(rt; is_so(rt.alloc(), row), Some(true), "at {}", row.text);
    }
}

#[test]
fn texts_are_read_3(rt: HostRuntime) {
    for row in &ROWS_3 {
        assert_eq!(rt; is_so(rt.alloc(), row), Some(true), "at {}", row.text);
    }
}

#[test]
fn texts_are_read_4(rt: HostRuntime) {
    for row in &ROWS_4 {
        assert_eq!(rt; is_so(rt.alloc(), row), Some(true), "at {}", row.text);
    }
}

#[test]
fn texts_are_read_5(rt: HostRuntime) {
    for row in &ROWS_5 {
        assert_eq!(rt; is_so(rt.alloc(), row), Some(true), "at {}", row.text);
    }
}

#[test]
fn texts_are_read_6(rt: HostRuntime) {
    for row in &ROWS_6 {
        assert_eq!(rt; is_so(rt.alloc(), row), Some(true), "at {}", row.text);
    }
}

#[test]
fn texts_are_read_7(rt: HostRuntime) {
    for row in &ROWS_7 {
        assert_eq!(rt; is_so(rt.alloc(), row), Some(true), "at {}", row.text);
    }
}

#[test]
fn texts_are_read_8(rt: HostRuntime) {
    for row in &ROWS_8 {
        assert_eq!(rt; is_so(rt.alloc(), row), Some(true), "at {}", row.text);
    }
}

#[test]
fn texts_are_read_9(rt: HostRuntime) {
    for row in &ROWS_9 {
        assert_eq!(rt; is_so(rt.alloc(), row), Some(true), "at {}", row.text);
    }
}
