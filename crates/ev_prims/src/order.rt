//! The order of two values of one kind.

ghost use Rattle.std.specs.Prelude.{◌≡◌, option_map};
ghost use Rattle.ev_heap.specs.Contents.{IsWeighable};
ghost use Rattle.def_machine.specs.Native as native;
ghost use Rattle.ev_prims.specs.Orders.{compared_by, order_in, test_in};
ghost use Rattle.ev_prims.specs.Reading.{reply_in, value_in};

use crate::problem::Problem;
use crate::reply::Reply;
use ev_base::Value;
use ev_heap::Heap;
use std::cmp::Ordering;

/// A test of an order.
#[derive(Clone, Copy)]
pub enum Test {
    LessThan,
    /// Less than the other, or as big.
    AtMost,
    AsBigAs,
    /// Greater than the other, or as big.
    AtLeast,
    GreaterThan,
}

/// Whether an order passes a test.
#[tactic(auto, unfolding(def_machine::specs::Native::is_less, def_machine::specs::Native::is_equal, def_machine::specs::Native::is_more))]
fn passes(test: Test, order: Ordering) -> bool
    ensures { result ≡ test_in test (order_in order) }
{
    match test {
        Test::LessThan => order.is_lt(),
        Test::AtMost => order.is_le(),
        Test::AsBigAs => order.is_eq(),
        Test::AtLeast => order.is_ge(),
        Test::GreaterThan => order.is_gt(),
    }
}

/// The order of two integers, two characters, or two texts by their bytes, and none of any other two values.
#[tactic(auto, using(crate::proofs::OrderLemmas::int_order_is, crate::proofs::OrderLemmas::order_of_is, crate::proofs::OrderLemmas::text_order_is, crate::proofs::Casts::casts), unfolding(def_machine::specs::Native::value_order))]
fn value_order(heap: &Heap, x: Value, y: Value) -> Option<Ordering>
    requires first { IsWeighable heap.now x }
    requires second { IsWeighable heap.now y }
    ensures { option_map order_in result ≡ native.value_order (value_in heap.now x) (value_in heap.now y) }
{
    match x {
        Value::Int(a) => match y {
            Value::Int(b) => Some(a.cmp(&b)),
            _ => None,
        },
        Value::Char(a) => match y {
            Value::Char(b) => Some(a.cmp(&b)),
            _ => None,
        },
        Value::Text(a) => match y {
            Value::Text(b) => Some(heap.text(a).cmp(&heap.text(b))),
            _ => None,
        },
        _ => None,
    }
}

/// Whether the order of two followed values passes a test. Two values that are not both integers, both characters or both texts
/// are not comparable. Their texts are to be in the heap.
#[tactic(auto, using(crate::proofs::OrderLemmas::compared_none, crate::proofs::OrderLemmas::compared_some, crate::proofs::OrderLemmas::ordered_none, crate::proofs::OrderLemmas::ordered_some))]
pub fn compare(heap: &Heap, test: Test, x: Value, y: Value) -> Reply
    requires first { IsWeighable heap.now x }
    requires second { IsWeighable heap.now y }
    ensures is { result ≡ compared_by test (native.value_order (value_in heap.now x) (value_in heap.now y)) }
    ensures means { reply_in heap.now result ≡ native.compared (test_in test) (native.value_order (value_in heap.now x) (value_in heap.now y)) }
{
    match value_order(heap, x, y) {
        Some(order) => Reply::Says(Value::Bool(passes(test, order))),
        None => Reply::Fails(Problem::NotComparable),
    }
}
