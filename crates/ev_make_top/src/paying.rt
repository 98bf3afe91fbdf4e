//! Writing an answer.

ghost use Rattle.ev_make_top.specs.Due.{debt_of};
ghost use Rattle.ev_make_top.specs.Paying.{Ends, Finishes};

use crate::answer::Answer;
use crate::status::MakeStatus;
use ev_io::{Sink, write_all};

/// Writes the text with which a status ends.
fn end<L: Sink>(err: &mut L, status: MakeStatus, text: &[u8]) -> MakeStatus
    ensures { Ends status text.now (L.written err.old) (L.written err.new) result }
{
    match write_all(err, text) {
        Ok(()) => status,
        Err(_) => MakeStatus::WriteFault,
    }
}

/// Writes an answer, first to the first sink. It ends with `WriteFault` where a sink fails, with fronts written.
pub fn pay<K: Sink, L: Sink>(out: &mut K, err: &mut L, answer: &Answer) -> MakeStatus
    ensures { Finishes (debt_of answer.now) (K.written out.old) (K.written out.new) (L.written err.old) (L.written err.new) result }
{
    match write_all(out, answer.out.as_bytes()) {
        Ok(()) => end(err, answer.status, answer.err.as_bytes()),
        Err(_) => MakeStatus::WriteFault,
    }
}
