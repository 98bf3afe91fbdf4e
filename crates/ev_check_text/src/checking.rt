//! Judging the text of a run that a source holds.

ghost use Rattle.std.specs.Prelude.{◌≡◌, ◌≤◌, IfOk, IfSome, string_bytes};
ghost use Rattle.std.specs.Io.KnownBytes.{IsAtEnd};
ghost use Rattle.ev_check_text.specs.Due.{IsDueOfBytes, IsDueOfInput};
ghost use Rattle.ev_io.specs.Causes.{Rose};
ghost use Rattle.ev_io.specs.Paying.{IsOfRead, IsOfWhole, Pays, Reads, ReadsFor};

use crate::telling::tell;
use ev_base::Memory;
use ev_io::{
    Early, MOST_BYTES, ReadEnd, Reply, Sink, Source, Status, finish, read_all, reply_line,
    reply_rule,
};
use ev_script::ScriptFault;
use std::alloc::Global;

/// The judgement on the text of a run, or the refusal of bytes that are none.
pub fn check_bytes(alloc: Global, bytes: &[u8]) -> Result<Reply, Memory>
    ensures { IfOk result (λ reply. IsDueOfBytes bytes.now reply.status (string_bytes reply.text)) }
{
    match tell(alloc, bytes) {
        Ok(text) => Ok(Reply {
            status: Status::Done,
            text,
        }),
        Err(ScriptFault::Rule(rule)) => reply_rule(alloc, rule),
        Err(ScriptFault::Memory) => Err(Memory),
    }
}

/// The same of the text that a source holds.
#[tactic(auto, using(crate::proofs::Checked::of_bytes, crate::proofs::Checked::read_long))]
fn check_input<S: Source>(alloc: Global, src: &mut S) -> Result<Reply, Early>
    ensures due { IfSome (S.left src.old) (λ input. IfOk result (λ reply. IsDueOfInput input reply.status (string_bytes reply.text))) }
    ensures kind { IfOk result (λ reply. IsOfRead reply.status) }
    ensures reads { ReadsFor (λ reply. reply.status) (S.left src.old) (S.left src.new) result }
    ensures end { IfOk result (λ reply. IsOfWhole reply.status → IsAtEnd (S.left src.new)) }
    ensures fault { result ≡ Err Early.ReadFault → Rose (S.faults src.old) (S.faults src.new) }
{
    match read_all(alloc, src, MOST_BYTES) {
        Ok(bytes) => Ok(check_bytes(alloc, bytes.as_slice())?),
        Err(ReadEnd::TooLong) => Ok(reply_line(alloc, Status::TooLong, "refused long")?),
        Err(ReadEnd::Failed) => Err(Early::ReadFault),
        Err(ReadEnd::Memory) => Err(Early::Memory),
    }
}

/// Judges the text of a run that a source holds, and writes what `evat check` writes. At most `MOST_BYTES` and one more are read.
#[tactic(auto, using(ev_io::proofs::PayLemmas::plain, ev_io::proofs::PayLemmas::no_usage, crate::proofs::Checked::pays_memory, crate::proofs::Checked::pays_read_fault))]
pub fn check_source<S: Source, K: Sink>(alloc: Global, src: &mut S, out: &mut K) -> Status
    // What is appended is what is due for all that the source has left, and so is the status.
    ensures due { IfSome (S.left src.old) (λ input. Pays (Unit {0}) (IsDueOfInput input) (K.written out.old) (K.written out.new) result) }
    ensures end { IsOfWhole result → IsAtEnd (S.left src.new) }
    ensures reads { Reads (S.left src.old) (S.left src.new) result }
    // Each answer that is not due has its cause, but want of memory.
    ensures usage { ¬ (result ≡ Status.Usage) }
    ensures read_fault { result ≡ Status.ReadFault → Rose (S.faults src.old) (S.faults src.new) }
    ensures write_fault { result ≡ Status.WriteFault → Rose (K.faults out.old) (K.faults out.new) }
{
    match check_input(alloc, src) {
        Ok(reply) => finish(out, reply.status, reply.text.as_bytes()),
        Err(Early::ReadFault) => Status::ReadFault,
        Err(Early::Memory) => Status::Memory,
    }
}
