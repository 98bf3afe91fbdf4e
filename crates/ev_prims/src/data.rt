//! What a value that is no object answers.

ghost use Rattle.std.specs.Prelude.{◌≡◌, All, IfOk};
ghost use Rattle.ev_heap.specs.Contents.{IsWeighable};
ghost use Rattle.def_machine.specs.Native as native;
ghost use Rattle.ev_prims.specs.Answers.{data_answer, members_at};
ghost use Rattle.ev_prims.specs.Reading.{lists_in, reply_in, text_in, value_in, values_in};

use crate::flags::flag_reply;
use crate::integers::int_reply;
use crate::letters::letter_reply;
use crate::lists::list_reply;
use crate::problem::Problem;
use crate::reply::Reply;
use crate::texts::text_reply;
use ev_base::{Memory, Value};
use ev_heap::Heap;
use std::alloc::Global;

/// What a followed value answers, in the terms of the code.
#[tactic(auto, using(crate::proofs::SeqLemmas::text_here, crate::proofs::SeqLemmas::members_here), unfolding(crate::specs::Answers::data_answer))]
#[inline(always)]
fn answered(
    alloc: Global,
    heap: &Heap,
    receiver: Value,
    verb: &str,
    held: &[Value],
    args: &[Value],
) -> Result<Reply, Memory>
    requires receiver { IsWeighable heap.now receiver }
    requires args { All (IsWeighable heap.now) args.now }
    ensures { IfOk result (λ r. r ≡ data_answer (text_in heap.now) (members_at heap.now) receiver verb.now held.now args.now) }
{
    match receiver {
        Value::Int(number) => Ok(int_reply(number, verb, args)),
        Value::Bool(flag) => Ok(flag_reply(flag, verb, args)),
        Value::Char(letter) => Ok(letter_reply(letter, verb, args)),
        Value::Text(id) => text_reply(alloc, heap, heap.text(id), verb, held, args),
        Value::List(id) => list_reply(alloc, heap, heap.members(id), verb, held, args),
        _ => Ok(Reply::Fails(Problem::NoMethod)),
    }
}

/// What a followed value answers to a verb, with the arguments as they are held and as they are followed. What is no integer,
/// boolean, character, text or list has no method. The texts and lists of the receiver and of the followed arguments are to be
/// in the heap, which stays as it is: what is made is handed back as it is to be made. The one error is want of memory.
///
/// `is` tells the answer in the terms of the code, and `means` what it stands for in the machine.
#[inline(always)]
pub fn data_reply(
    alloc: Global,
    heap: &Heap,
    receiver: Value,
    verb: &str,
    held: &[Value],
    args: &[Value],
) -> Result<Reply, Memory>
    requires receiver { IsWeighable heap.now receiver }
    requires args { All (IsWeighable heap.now) args.now }
    ensures is { IfOk result (λ r. r ≡ data_answer (text_in heap.now) (members_at heap.now) receiver verb.now held.now args.now) }
    ensures means { IfOk result (λ r.
        reply_in heap.now r ≡ native.data_reply (lists_in heap.now) (value_in heap.now receiver) verb.now (values_in heap.now held.now) (values_in heap.now args.now)) }
{
    answered(alloc, heap, receiver, verb, held, args)
}
