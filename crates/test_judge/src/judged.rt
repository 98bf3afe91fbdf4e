//! Verdicts on frames, as a table says.

use crate::rows::{ROWS, Row};
use ev_base::{PromId, Value, VatId};
use ev_judge::{Verdict, judge_frame, named};
use ev_tables::Connection;
use std::alloc::Global;

/// The mark of a lawful frame among places.
const LAWFUL: u8 = 255;

/// A connection with so many exports, answers and questions, and with imports of these kinds. Each thing has a number of its own.
fn connection(alloc: Global, row: &Row) -> Option<Connection> {
    let mut made = Connection::new(alloc, VatId(row.peer));
    for number in 0..row.exports {
        made.export(Value::Prom(PromId(number))).ok()?;
    }
    for number in 0..row.answers {
        made.answer(number, PromId(1_000_000 + number % 1_000_000))
            .ok()?;
    }
    for number in 0..row.questions {
        made.ask(PromId(2_000_000 + number % 1_000_000)).ok()?;
    }
    let mut position = 0;
    for kind in row.imports.bytes() {
        let thing = if kind == b'o' {
            Value::Far(VatId(row.peer), position)
        } else {
            Value::Prom(PromId(position | 3_145_728))
        };
        made.import(position, thing).ok()?;
        position = position.wrapping_add(1);
    }
    Some(made)
}

/// The place of the fault of a frame, or the mark of a lawful one.
fn place(alloc: Global, connection: &Connection, row: &Row, frame: &[u8]) -> Option<u8> {
    match judge_frame(alloc, connection, VatId(row.me), row.vats, frame).ok()? {
        Verdict::Lawful(_, _) => Some(LAWFUL),
        Verdict::Malformed(place) => u8::try_from(place).ok(),
    }
}

/// Whether a frame is lawful and has new positions of these kinds.
fn is_lawful(alloc: Global, connection: &Connection, row: &Row, frame: &[u8]) -> Option<bool> {
    match judge_frame(alloc, connection, VatId(row.me), row.vats, frame).ok()? {
        Verdict::Lawful(_, new) => {
            let mut kinds = String::new(alloc);
            for kind in new.as_slice() {
                kinds.push(if *kind { 'o' } else { 'p' }).ok()?;
            }
            Some(kinds.as_str() == row.new)
        }
        Verdict::Malformed(_) => Some(false),
    }
}

/// The places of a frame at each length below its own, in hex.
fn cuts(alloc: Global, connection: &Connection, row: &Row, frame: &[u8]) -> Option<String> {
    let mut places = Vec::new(alloc);
    for length in 0..frame.len() {
        places
            .push(place(alloc, connection, row, &frame[..length])?)
            .ok()?;
    }
    hex::encode(alloc, places.as_slice()).ok()
}

/// The places of a frame with one byte turned on by so many, for each byte, in hex.
fn turned(
    alloc: Global,
    connection: &Connection,
    row: &Row,
    frame: &mut [u8],
    by: u8,
) -> Option<String> {
    let mut places = Vec::new(alloc);
    for at in 0..frame.len() {
        frame[at] = frame[at].wrapping_add(by);
        places.push(place(alloc, connection, row, frame)?).ok()?;
        frame[at] = frame[at].wrapping_sub(by);
    }
    hex::encode(alloc, places.as_slice()).ok()
}

/// The sum of the places of a frame with one bit turned, over each bit of each byte.
fn sum(alloc: Global, connection: &Connection, row: &Row, frame: &mut [u8]) -> Option<u64> {
    let mut all = 0_u64;
    for at in 0..frame.len() {
        for bit in [1, 2, 4, 8, 16, 32, 64, 128] {
            frame[at] ^= bit;
            all = all.checked_add(u64::from(place(alloc, connection, row, frame)?))?;
            frame[at] ^= bit;
        }
    }
    Some(all)
}

/// What of a row does not come true, or that memory ran out.
fn wrong(alloc: Global, row: &Row) -> Option<&'static str> {
    let Some(connection) = connection(alloc, row) else {
        return Some("connection");
    };
    let Ok(mut frame) = hex::decode(alloc, row.frame) else {
        return Some("frame");
    };
    let frame = frame.as_mut_slice();
    if is_lawful(alloc, &connection, row, frame) != Some(true) {
        return Some("new");
    }
    if !is(cuts(alloc, &connection, row, frame), row.cuts) {
        return Some("cuts");
    }
    if !is(turned(alloc, &connection, row, frame, 1), row.more) {
        return Some("more");
    }
    if !is(turned(alloc, &connection, row, frame, 255), row.less) {
        return Some("less");
    }
    if sum(alloc, &connection, row, frame) != Some(row.sum) {
        return Some("sum");
    }
    None
}

fn is(found: Option<String>, due: &str) -> bool {
    match found {
        Some(text) => text.as_str() == due,
        None => false,
    }
}

/// Whether an operation names its target, and in its arguments one export, one answer and no thing of the sender.
fn all_named(alloc: Global) -> Option<bool> {
    let row = &ROWS[13];
    let connection = connection(alloc, row)?;
    let frame = hex::decode(alloc, row.frame).ok()?;
    let bytes = frame.as_slice();
    match judge_frame(alloc, &connection, VatId(row.me), row.vats, bytes).ok()? {
        Verdict::Lawful(op, _) => {
            let values = named(alloc, &connection, &op).ok()?;
            let due = [
                Value::Prom(PromId(0)),
                Value::Prom(PromId(1)),
                Value::Prom(PromId(1_000_000)),
            ];
            Some(values.as_slice() == &due[..])
        }
        Verdict::Malformed(_) => Some(false),
    }
}

#[test]
fn verdicts(rt: HostRuntime) {
    for row in &ROWS {
        assert_eq!(rt; wrong(rt.alloc(), row), None, "at {}", row.frame);
    }
    assert_eq!(rt; all_named(rt.alloc()), Some(true));
}
