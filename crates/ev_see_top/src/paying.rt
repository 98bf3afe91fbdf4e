//! Writing an answer.

ghost use Rattle.std.specs.Prelude.{◌⊎◌};
ghost use Rattle.ev_io.specs.Causes.{Rose};
ghost use Rattle.ev_see_top.specs.Due.{debt_of};
ghost use Rattle.ev_see_top.specs.Paying.{Ends, EndsBy, Finishes};

use crate::answer::Answer;
use crate::status::SeeStatus;
use ev_io::{Sink, write_all};

/// Writes the text with which a status ends.
fn end<L: Sink>(err: &mut L, status: SeeStatus, text: &[u8]) -> SeeStatus
    ensures text { Ends status text.now (L.written err.old) (L.written err.new) result }
    ensures fault { EndsBy (Rose (L.faults err.old) (L.faults err.new)) status result }
{
    match write_all(err, text) {
        Ok(()) => status,
        Err(_) => SeeStatus::WriteFault,
    }
}

/// Writes an answer, first to the first sink. It ends with `WriteFault` where a sink fails, with fronts written.
pub fn pay<K: Sink, L: Sink>(out: &mut K, err: &mut L, answer: &Answer) -> SeeStatus
    ensures text { Finishes (debt_of answer.now) (K.written out.old) (K.written out.new) (L.written err.old) (L.written err.new) result }
    ensures fault { EndsBy (Rose (K.faults out.old) (K.faults out.new) ⊎ Rose (L.faults err.old) (L.faults err.new)) answer.now.status result }
{
    match write_all(out, answer.out.as_bytes()) {
        Ok(()) => end(err, answer.status, answer.err.as_bytes()),
        Err(_) => SeeStatus::WriteFault,
    }
}
