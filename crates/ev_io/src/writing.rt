//! Writing the text of a reply.

ghost use Rattle.std.specs.Prelude.{◌≡◌, ◌≤◌, ◌⊎◌};
ghost use Rattle.ev_io.specs.Causes.{Rose};
ghost use Rattle.ev_io.specs.Paying.{Finishes};

use crate::status::Status;
use crate::{Sink, write_all};

/// Writes the text of a status.
pub fn finish<K: Sink>(out: &mut K, status: Status, text: &[u8]) -> Status
    ensures text { Finishes (K.written out.old) (K.written out.new) status text.now result }
    ensures later { K.faults out.old ≤ K.faults out.new }
    ensures fault { result ≡ status ⊎ Rose (K.faults out.old) (K.faults out.new) }
{
    match write_all(out, text) {
        Ok(()) => status,
        Err(_) => Status::WriteFault,
    }
}
