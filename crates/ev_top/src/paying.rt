//! Writing what is owed.

ghost use Rattle.std.specs.Prelude.{◌≡◌, ◌≤◌};
ghost use Rattle.ev_io.specs.Causes.{Rose};
ghost use Rattle.ev_top.specs.RunDue.{MayRun, debt_of};
ghost use Rattle.ev_io.specs.Paying.{IsOfRead, Settles};

use crate::reply::Owed;
use crate::run::write_prepared;
use ev_io::{Sink, Status, finish};
use std::alloc::Global;

/// Writes what is owed. Of a run that is what it tells, as it happens.
pub fn pay<K: Sink>(alloc: Global, owed: Owed, out: &mut K) -> Status
    requires ready { MayRun owed }
    requires kind { IsOfRead (debt_of owed).status }
    ensures text { Settles (K.written out.old) (K.written out.new) (debt_of owed) result }
    ensures later { K.faults out.old ≤ K.faults out.new }
    ensures fault { result ≡ Status.WriteFault → Rose (K.faults out.old) (K.faults out.new) }
{
    match owed {
        Owed::Reply(reply) => finish(out, reply.status, reply.text.as_bytes()),
        Owed::Run(prepared) => write_prepared(alloc, prepared, out),
    }
}
