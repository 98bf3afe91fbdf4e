//! The top call on bytes that are at hand.

ghost use Rattle.std.specs.Prelude.{◌≡◌, ◌⊎◌, List, ℕ, IfOk};
ghost use Rattle.def_machine.specs.State.{Fuel, Deep};
ghost use Rattle.ev_io.specs.Causes.{Rose};
ghost use Rattle.ev_io.specs.Paying.{IsOfRead};
ghost use Rattle.ev_reader.specs.declared.fault.Stage.{Stage as Part};
ghost use Rattle.ev_top.specs.Causes.{Breaks, ComesWhere, Follows, HasFault, HasNoTree, IsAstray, IsLong, IsProgramRefused, RepeatsWord, Stops};
ghost use Rattle.ev_top.specs.Commands.{command_of};
ghost use Rattle.ev_top.specs.Due.{IsDue, Pays};
ghost use Rattle.ev_top.specs.Programs.{refusal};
ghost use Rattle.ev_top.specs.RunDue.{MayRun, debt_of};

use crate::command::{Command, command_of, reads};
use crate::program::{reply_bytes, reply_long, reply_unread};
use crate::{Owed, pay};
use ev_base::{Memory, Seq, Str};
use ev_io::{MOST_BYTES, Sink, Status, finish};
use std::alloc::Global;

/// What a command asks for, of all bytes that there are.
fn owed_for(alloc: Global, command: Command, bytes: &[u8]) -> Result<Owed, Memory>
    ensures due { IfOk result (λ owed. IsDue (Some command) bytes.now (debt_of owed).status (debt_of owed).text) }
    ensures kind { IfOk result (λ owed. IsOfRead (debt_of owed).status) }
    ensures ready { IfOk result MayRun }
{
    if !reads(command) {
        return reply_unread(alloc, command);
    }
    if bytes.len() > MOST_BYTES as usize {
        return Ok(Owed::Reply(reply_long(alloc, command)?));
    }
    reply_bytes(alloc, command, bytes)
}

/// Answers a call, without the causes of each answer.
#[tactic(auto, using(ev_io::proofs::PayLemmas::plain, ev_io::proofs::PayLemmas::no_usage))]
fn answer_for<K: Sink>(alloc: Global, words: &Seq<Str>, bytes: &[u8], out: &mut K) -> Status
    ensures due { Pays (K.written out.old) (K.written out.new) result (command_of words.now) bytes.now }
    ensures unread { ¬ (result ≡ Status.ReadFault) }
    ensures usage { (result ≡ Status.Usage → command_of words.now ≡ None)
        × (command_of words.now ≡ None → result ≡ Status.Usage ⊎ result ≡ Status.WriteFault) }
    ensures write_fault { result ≡ Status.WriteFault → Rose (K.faults out.old) (K.faults out.new) }
{
    let Some(command) = command_of(words) else {
        return finish(out, Status::Usage, b"refused usage\n");
    };
    match owed_for(alloc, command, bytes) {
        Ok(owed) => pay(alloc, owed, out),
        Err(Memory) => Status::Memory,
    }
}

/// Does what the words ask for, on bytes that are at hand in the place of a source. Nothing is read, so no fault of reading comes, and each clause of `top` on its input holds of the bytes as they are.
/// The properties of the run that is due are laws of every script, which stand in `laws`.
pub fn top_of_bytes<K: Sink>(alloc: Global, words: &Seq<Str>, bytes: &[u8], out: &mut K) -> Status
    // What is appended is what is due for the words and the bytes, and so is the status.
    ensures due { Pays (K.written out.old) (K.written out.new) result (command_of words.now) bytes.now }
    ensures unread { ¬ (result ≡ Status.ReadFault) }
    // Each answer has its cause.
    ensures usage { (result ≡ Status.Usage → command_of words.now ≡ None)
        × (command_of words.now ≡ None → result ≡ Status.Usage ⊎ result ≡ Status.WriteFault) }
    ensures long { ComesWhere (λ s. s ≡ Status.TooLong) result (IsLong (command_of words.now) bytes.now) }
    ensures rule { (rule : ℕ) → ComesWhere (λ s. s ≡ Status.ScriptRefused rule) result (Breaks rule (command_of words.now) bytes.now) }
    ensures refused { (vat : ℕ) (part : Part) (kind place : ℕ)
        → ComesWhere (λ s. s ≡ Status.ProgramRefused (refusal vat part kind place)) result (HasFault vat part kind place (command_of words.now) bytes.now) }
    ensures no_tree { Follows IsProgramRefused result (HasNoTree (command_of words.now) bytes.now) }
    ensures never_astray { ¬ IsAstray result }
    ensures fuel { (step : ℕ) → ComesWhere (λ s. s ≡ Status.FuelSpent step) result (Stops Fuel step (command_of words.now) bytes.now) }
    ensures depth { (step : ℕ) → ComesWhere (λ s. s ≡ Status.TooDeep step) result (Stops Deep step (command_of words.now) bytes.now) }
    ensures repeated { (first second : ℕ) → ComesWhere (λ s. s ≡ Status.WordRepeated first second) result
        (RepeatsWord first second (command_of words.now) bytes.now) }
    ensures write_fault { result ≡ Status.WriteFault → Rose (K.faults out.old) (K.faults out.new) }
    // Without a fault of the sink, the answer is what is due, or want of memory.
    ensures complete { ¬ Rose (K.faults out.old) (K.faults out.new)
        → result ≡ Status.Memory ⊎ ((text : List ℕ) × IsDue (command_of words.now) bytes.now result text) }
{
    answer_for(alloc, words, bytes, out)
}
