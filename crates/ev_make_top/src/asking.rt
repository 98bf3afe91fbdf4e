//! Doing what the words of a command ask, on what a source holds.

ghost use Rattle.std.specs.Prelude.{◌≡◌, IfOk, IfSome};
ghost use Rattle.ev_io.specs.Causes.{Rose};
ghost use Rattle.ev_make_top.specs.Asked.{question_of};
ghost use Rattle.ev_make_top.specs.Due.{IsFor, due, script_asked};
ghost use Rattle.ev_make_top.specs.Paying.{Pays};

use crate::answer::{Answer, answer_fixed, answer_script, answer_too_long};
use crate::paying::pay;
use crate::question::{Question, question_of};
use crate::status::MakeStatus;
use ev_base::Str;
use ev_io::{Early, ReadEnd, Sink, Source, read_all};
use std::alloc::Global;

/// The most bytes that are read: as many as are read of a script.
const MOST_BYTES: u32 = 1048576;

/// What is written where the script of what a source holds is asked for.
#[tactic(auto, using(crate::proofs::DueLemmas::read_long))]
fn asked_script<S: Source>(alloc: Global, src: &mut S) -> Result<Answer, Early>
    ensures due { IfSome (S.left src.old) (λ input. IfOk result (λ answer. IsFor answer (script_asked input))) }
    ensures fault { result ≡ Err Early.ReadFault → Rose (S.faults src.old) (S.faults src.new) }
{
    match read_all(alloc, src, MOST_BYTES) {
        Ok(bytes) => Ok(answer_script(alloc, bytes.as_slice())?),
        Err(ReadEnd::TooLong) => Ok(answer_too_long(alloc)?),
        Err(ReadEnd::Failed) => Err(Early::ReadFault),
        Err(ReadEnd::Memory) => Err(Early::Memory),
    }
}

/// What is written for a question on what a source holds.
#[tactic(auto, unfolding(crate::specs::Due::due))]
fn answered<S: Source>(alloc: Global, question: Question, src: &mut S) -> Result<Answer, Early>
    ensures due { IfSome (S.left src.old) (λ input. IfOk result (λ answer. IsFor answer (due question input))) }
    ensures fault { result ≡ Err Early.ReadFault → Rose (S.faults src.old) (S.faults src.new) }
{
    match question {
        Question::Script => asked_script(alloc, src),
        other => Ok(answer_fixed(alloc, other)?),
    }
}

/// Does what the words of a command ask with the text that a source holds: what is asked for goes to `out`, and words on what is
/// wrong to `err`. At most 1 MiB and one byte are read, and none where no text is asked for.
#[tactic(auto, using(crate::proofs::PayLemmas::finished, crate::proofs::PayLemmas::unpaid))]
pub fn make<S: Source, K: Sink, L: Sink>(
    alloc: Global,
    words: &[Str],
    src: &mut S,
    out: &mut K,
    err: &mut L,
) -> MakeStatus
    // What is appended is what is due for these words and all that the source has left, and so is the status.
    ensures due { IfSome (S.left src.old) (λ input. Pays (due (question_of words.now) input) (K.written out.old) (K.written out.new) (L.written err.old) (L.written err.new) result) }
{
    match answered(alloc, question_of(words), src) {
        Ok(answer) => pay(out, err, &answer),
        Err(Early::ReadFault) => MakeStatus::ReadFault,
        Err(Early::Memory) => MakeStatus::Memory,
    }
}
