//! The verb and the arguments of a message, as a program gives them.

ghost use Rattle.std.specs.Prelude.{◌≡◌, IfOk, length, nat_le};
ghost use Rattle.ev_steps.specs.Eventual.{message_in, short_message};

use ev_base::{Memory, Seq, Value, Word};
use ev_heap::Heap;
use ev_room::data::{members_of, text_of};
use std::alloc::Global;

/// The greatest number of arguments of a message.
const MOST_ARGUMENTS: usize = 255;

/// A verb and arguments.
#[derive(Drop)]
pub struct Request {
    pub verb: Word,
    pub args: Seq<Value>,
}

/// A verb and arguments, where these are not too many.
fn short_message(alloc: Global, verb: &str, args: &[Value]) -> Result<Option<Request>, Memory>
    ensures { IfOk result (λ message. message ≡ short_message verb.now args.now (nat_le (length args.now) 255)) }
{
    if args.len() > MOST_ARGUMENTS {
        return Ok(None);
    }
    let verb = Word::copy_of(alloc, verb)?;
    let args = Seq::of(Vec::from_slice(alloc, args)?);
    Ok(Some(Request { verb, args }))
}

/// The verb and the arguments of a message: a followed text, and a followed list of at most 255 members. None where they are none.
#[tactic(auto, unfolding(crate::specs::Eventual::message_in))]
pub fn message_in(
    alloc: Global,
    heap: &Heap,
    verb: Value,
    list: Value,
) -> Result<Option<Request>, Memory>
    ensures { IfOk result (λ message. message ≡ message_in heap.now verb list) }
{
    match verb {
        Value::Text(text) => match list {
            Value::List(list) => short_message(alloc, text_of(heap, text), members_of(heap, list)),
            _ => Ok(None),
        },
        _ => Ok(None),
    }
}
