//! Ranges of integers.

ghost use Rattle.std.specs.Prelude.{◌≡◌, ◌+◌, ◌≤◌, ◌<ℤ◌, ◌≤ℤ◌, ◌+ℤ◌, ◌^◌, IfOk, pos};
ghost use Rattle.ev_heap.specs.Contents.{Contents};
ghost use Rattle.def_machine.specs.Native as native;
ghost use Rattle.ev_prims.specs.Ranges.{range_answer};
ghost use Rattle.ev_prims.specs.Reading.{reply_in, value_in, values_in};

use crate::problem::Problem;
use crate::reply::Reply;
use ev_base::{Memory, Seq, Value};
use std::alloc::Global;

/// How many integers a range may have.
const MOST: u128 = 65535;

/// The integer that is so many above another.
fn number_at(first: i128, index: usize) -> i128
    requires { (first +ℤ pos index) <ℤ pos (2 ^ 127) }
    ensures { result ≡ first +ℤ pos index }
{
    first + index as i128
}

/// So many integers, from this one on.
fn counted(alloc: Global, first: i128, count: usize) -> Result<Seq<Value>, Memory>
    requires { (first +ℤ pos count) ≤ℤ pos (2 ^ 127) }
    ensures { IfOk result (λ all. (h : Contents) → values_in h all ≡ native.counted first count) }
{
    let mut all = Seq::new(alloc);
    for index in 0..count {
        let number = number_at(first, index);
        all.push(Value::Int(number))?;
    }
    Ok(all)
}

/// So many integers from this one on, where a list may have so many.
#[tactic(auto, using(crate::proofs::RangeLemmas::light_range, crate::proofs::RangeLemmas::heavy_range))]
fn range_of(alloc: Global, first: i128, count: u128) -> Result<Reply, Memory>
    requires { (first +ℤ pos count) ≤ℤ pos (2 ^ 127) }
    ensures { IfOk result (λ r. (h : Contents) → reply_in h r ≡ native.range_of first count) }
{
    if count <= MOST {
        Ok(Reply::Lists(counted(alloc, first, count as usize)?))
    } else {
        Ok(Reply::Fails(Problem::TooHeavy))
    }
}

/// The integers from one to before another.
#[tactic(auto, using(crate::proofs::RangeLemmas::gap_up, crate::proofs::RangeLemmas::gap_down, crate::proofs::RangeLemmas::up_to, crate::proofs::RangeLemmas::plus_none))]
fn until(alloc: Global, first: i128, end: i128) -> Result<Reply, Memory>
    ensures { IfOk result (λ r. (h : Contents) → reply_in h r ≡ native.range_of first (native.gap first end)) }
{
    if first <= end {
        range_of(alloc, first, end.abs_diff(first))
    } else {
        range_of(alloc, first, 0)
    }
}

/// The integers from one to another, which is among them.
#[tactic(auto, using(crate::proofs::RangeLemmas::gap_last, crate::proofs::RangeLemmas::gap_last_down, crate::proofs::RangeLemmas::up_to_last, crate::proofs::RangeLemmas::plus_none, crate::proofs::RangeLemmas::heavy_range))]
fn through(alloc: Global, first: i128, last: i128) -> Result<Reply, Memory>
    ensures { IfOk result (λ r. (h : Contents) → reply_in h r ≡ native.range_of first (native.gap first (last +ℤ pos 1))) }
{
    if last < first {
        return range_of(alloc, first, 0);
    }
    let distance = last.abs_diff(first);
    if distance < MOST {
        range_of(alloc, first, distance + 1)
    } else {
        Ok(Reply::Fails(Problem::TooHeavy))
    }
}

/// The integers from one followed value to another, by whether the last is among them.
#[tactic(auto, unfolding(def_machine::specs::Native::range_reply))]
fn ranged(alloc: Global, last: bool, x: Value, y: Value) -> Result<Reply, Memory>
    ensures { IfOk result (λ r. (h : Contents) → reply_in h r ≡ native.range_reply last (value_in h x) (value_in h y)) }
{
    match x {
        Value::Int(first) => match y {
            Value::Int(end) => {
                if last {
                    through(alloc, first, end)
                } else {
                    until(alloc, first, end)
                }
            }
            _ => Ok(Reply::Fails(Problem::NotInt)),
        },
        _ => Ok(Reply::Fails(Problem::NotInt)),
    }
}

/// The integers from one followed value to another, by whether the last is among them: none where the second is below the first.
/// They are refused where either is no integer, and where they are more than 65,535. The one error is want of memory.
pub fn range(alloc: Global, last: bool, x: Value, y: Value) -> Result<Reply, Memory>
    ensures is { IfOk result (λ r. r ≡ range_answer last x y) }
    ensures means { IfOk result (λ r. (h : Contents) → reply_in h r ≡ native.range_reply last (value_in h x) (value_in h y)) }
{
    ranged(alloc, last, x, y)
}
