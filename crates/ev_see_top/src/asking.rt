//! Answering the words of a command, for the history that a source holds.

ghost use Rattle.std.specs.Prelude.{◌≡◌, ◌⊎◌, IfOk, IfSome};
ghost use Rattle.ev_io.specs.Causes.{Rose};
ghost use Rattle.ev_see_top.specs.Asked.{question_of};
ghost use Rattle.ev_see_top.specs.Due.{IsDue, IsFor, IsWhyAsked, debt_of, told_asked};
ghost use Rattle.ev_see_top.specs.Paying.{IsPlain, Pays};

use crate::answer::{Answer, answer_fixed, answer_told, answer_too_long, answer_why};
use crate::paying::pay;
use crate::question::{Question, question_of};
use crate::status::SeeStatus;
use ev_base::Str;
use ev_io::{Early, ReadEnd, Sink, Source, read_all};
use std::alloc::Global;

/// The most bytes that are read: 16 MiB.
const MOST_BYTES: u32 = 16777216;

/// What is written where the diagram, or the messages, of what a source holds are asked for.
#[tactic(auto, using(crate::proofs::DueLemmas::read_long))]
fn asked_told<S: Source>(alloc: Global, drawn: bool, src: &mut S) -> Result<Answer, Early>
    ensures due { IfSome (S.left src.old) (λ input. IfOk result (λ answer. IsFor answer (told_asked drawn input))) }
    ensures plain { IfOk result (λ answer. IsPlain answer.status) }
    ensures fault { result ≡ Err Early.ReadFault → Rose (S.faults src.old) (S.faults src.new) }
{
    match read_all(alloc, src, MOST_BYTES) {
        Ok(bytes) => Ok(answer_told(alloc, drawn, bytes.as_slice())?),
        Err(ReadEnd::TooLong) => Ok(answer_too_long(alloc)?),
        Err(ReadEnd::Failed) => Err(Early::ReadFault),
        Err(ReadEnd::Memory) => Err(Early::Memory),
    }
}

/// What is written where it is asked why what a source holds is refused.
#[tactic(auto, using(crate::proofs::DueLemmas::why_long))]
fn asked_why<S: Source>(alloc: Global, is_strict: bool, src: &mut S) -> Result<Answer, Early>
    ensures due { IfSome (S.left src.old) (λ input. IfOk result (λ answer. IsWhyAsked is_strict input (debt_of answer))) }
    ensures plain { IfOk result (λ answer. IsPlain answer.status) }
    ensures fault { result ≡ Err Early.ReadFault → Rose (S.faults src.old) (S.faults src.new) }
{
    match read_all(alloc, src, MOST_BYTES) {
        Ok(bytes) => Ok(answer_why(alloc, is_strict, bytes.as_slice())?),
        Err(ReadEnd::TooLong) => Ok(answer_too_long(alloc)?),
        Err(ReadEnd::Failed) => Err(Early::ReadFault),
        Err(ReadEnd::Memory) => Err(Early::Memory),
    }
}

/// What is written for a question on what a source holds.
#[tactic(auto, unfolding(crate::specs::Due::IsDue))]
fn answered<S: Source>(alloc: Global, question: Question, src: &mut S) -> Result<Answer, Early>
    ensures due { IfSome (S.left src.old) (λ input. IfOk result (λ answer. IsDue question input (debt_of answer))) }
    ensures plain { IfOk result (λ answer. IsPlain answer.status) }
    ensures fault { result ≡ Err Early.ReadFault → Rose (S.faults src.old) (S.faults src.new) }
{
    match question {
        Question::Messages => asked_told(alloc, false, src),
        Question::Draw => asked_told(alloc, true, src),
        Question::Why => asked_why(alloc, false, src),
        Question::Strict => asked_why(alloc, true, src),
        other => Ok(answer_fixed(alloc, other)?),
    }
}

/// Answers the words of a command on the history that a source holds: what is asked for goes to `out`, and words on what is
/// wrong to `err`. At most 16 MiB and one byte are read, and none where no history is asked for.
#[tactic(auto, using(crate::proofs::PayLemmas::finished, crate::proofs::PayLemmas::unpaid, crate::proofs::PayLemmas::never_read, crate::proofs::PayLemmas::why_write))]
pub fn see<S: Source, K: Sink, L: Sink>(
    alloc: Global,
    words: &[Str],
    src: &mut S,
    out: &mut K,
    err: &mut L,
) -> SeeStatus
    // What is appended is what is due for these words and all that the source has left, and so is the status.
    ensures due { IfSome (S.left src.old) (λ input. Pays (IsDue (question_of words.now) input) (K.written out.old) (K.written out.new) (L.written err.old) (L.written err.new) result) }
    // A fault is answered only where one was told.
    ensures read_fault { result ≡ SeeStatus.ReadFault → Rose (S.faults src.old) (S.faults src.new) }
    ensures write_fault { result ≡ SeeStatus.WriteFault → Rose (K.faults out.old) (K.faults out.new) ⊎ Rose (L.faults err.old) (L.faults err.new) }
{
    match answered(alloc, question_of(words), src) {
        Ok(answer) => pay(out, err, &answer),
        Err(Early::ReadFault) => SeeStatus::ReadFault,
        Err(Early::Memory) => SeeStatus::Memory,
    }
}
