//! The top call.

ghost use Rattle.std.specs.Prelude.{◌≡◌, ◌<◌, ◌≤◌, ◌⊎◌, true, false, length, List, ℕ, IfOk, IfSome, string_bytes};
ghost use Rattle.std.specs.Io.KnownBytes.{IsAtEnd};
ghost use Rattle.ev_io.specs.Causes.{Rose};
ghost use Rattle.ev_top.specs.Commands.{command_of, reads};
ghost use Rattle.ev_io.specs.Debt.{most_bytes};
ghost use Rattle.def_machine.specs.State.{Fuel, Deep};
ghost use Rattle.ev_reader.specs.declared.fault.Stage.{Stage as Part};
ghost use Rattle.ev_top.specs.Causes.{Breaks, ComesWhere, Follows, HasFault, HasNoTree, IsAstray, IsLong, IsProgramRefused, RepeatsWord, Stops};
ghost use Rattle.ev_top.specs.RunDue.{MayRun, debt_of};
ghost use Rattle.ev_io.specs.Paying.{IsOfRead, IsOfWhole, Reads};
ghost use Rattle.ev_top.specs.Due.{IsDue, IsReading, Pays, ReadsFor};
ghost use Rattle.ev_top.specs.Headline.{EntriesDoWhatIsThere, MessagesHaveOneFate, RunsHoldOrder, RunsHoldUses, SeveredStaysBroken, StampedReachFrozenAlone, StopsAsItCame, SumsUp, UsesAreConnected};
ghost use Rattle.ev_top.specs.Programs.{refusal};

use crate::command::{Command, command_of, reads};
use crate::expansion::expand_bytes;
use crate::lines::{mint_bytes, reply_generated, sturdy_bytes};
use crate::summary::sum_generated;
use crate::{Owed, owed_bytes, pay};
use ev_base::{Memory, Seq, Str};
use ev_check_text::check_bytes;
use ev_io::{
    Early, MOST_BYTES, ReadEnd, Reply, Sink, Source, Status, finish, read_all, reply_line,
};
use std::alloc::Global;

/// What a command asks for, of bytes that are few enough.
#[tactic(auto, using(crate::proofs::DueLemmas::due_few, crate::proofs::DueLemmas::whole))]
pub(crate) fn reply_bytes(alloc: Global, command: Command, bytes: &[u8]) -> Result<Owed, Memory>
    requires { length bytes.now ≤ most_bytes }
    ensures due { IfOk result (λ owed. IsDue (Some command) bytes.now (debt_of owed).status (debt_of owed).text) }
    ensures whole { IfOk result (λ owed. IsOfWhole (debt_of owed).status) }
    ensures ready { IfOk result MayRun }
{
    match command {
        Command::Run { wire } => owed_bytes(alloc, bytes, wire),
        Command::Expand => Ok(Owed::Reply(expand_bytes(alloc, bytes)?)),
        Command::Generate(number) => Ok(Owed::Reply(reply_generated(alloc, number)?)),
        Command::Sum(number) => Ok(Owed::Reply(sum_generated(alloc, number)?)),
        Command::Sturdy => Ok(Owed::Reply(sturdy_bytes(alloc, bytes)?)),
        Command::Mint => Ok(Owed::Reply(mint_bytes(alloc, bytes)?)),
        Command::Check => Ok(Owed::Reply(check_bytes(alloc, bytes)?)),
    }
}

/// What a command asks for, of bytes that are too many.
#[tactic(auto, using(crate::proofs::DueLemmas::due_long))]
pub(crate) fn reply_long(alloc: Global, command: Command) -> Result<Reply, Memory>
    requires { reads command ≡ true }
    ensures due { (input : List ℕ) → most_bytes < length input → IfOk result (λ reply. IsDue (Some command) input reply.status (string_bytes reply.text)) }
    ensures long { IfOk result (λ reply. reply.status ≡ Status.TooLong) }
{
    reply_line(alloc, Status::TooLong, "refused long")
}

/// What a command asks for, of what the source has.
#[tactic(auto, using(crate::proofs::DueLemmas::due_read, crate::proofs::DueLemmas::due_unread))]
fn reply_to<S: Source>(alloc: Global, command: Command, src: &mut S) -> Result<Owed, Early>
    requires { reads command ≡ true }
    ensures due { IfSome (S.left src.old)
        (λ input. IfOk result (λ owed. IsDue (Some command) input (debt_of owed).status (debt_of owed).text)) }
    ensures kind { IfOk result (λ owed. IsOfRead (debt_of owed).status) }
    ensures ready { IfOk result MayRun }
    ensures reads { ReadsFor (S.left src.old) (S.left src.new) result }
    ensures end { IfOk result (λ owed. IsOfWhole (debt_of owed).status → IsAtEnd (S.left src.new)) }
    ensures fault { result ≡ Err Early.ReadFault → Rose (S.faults src.old) (S.faults src.new) }
    ensures later { S.faults src.old ≤ S.faults src.new }
{
    match read_all(alloc, src, MOST_BYTES) {
        Ok(bytes) => Ok(reply_bytes(alloc, command, bytes.as_slice())?),
        Err(ReadEnd::TooLong) => Ok(Owed::Reply(reply_long(alloc, command)?)),
        Err(ReadEnd::Failed) => Err(Early::ReadFault),
        Err(ReadEnd::Memory) => Err(Early::Memory),
    }
}

/// What a command asks for that reads nothing.
#[tactic(auto, using(crate::proofs::Unread::due_whatever))]
pub(crate) fn reply_unread(alloc: Global, command: Command) -> Result<Owed, Memory>
    requires { reads command ≡ false }
    ensures due { (input : List ℕ) → IfOk result (λ owed. IsDue (Some command) input (debt_of owed).status (debt_of owed).text) }
    ensures whole { IfOk result (λ owed. IsOfWhole (debt_of owed).status) }
    ensures ready { IfOk result MayRun }
{
    reply_bytes(alloc, command, b"")
}

/// What a command asks for.
#[tactic(auto, using(crate::proofs::Unread::for_all, crate::proofs::Unread::nothing_read, crate::proofs::Unread::nothing_taken, crate::proofs::Unread::whole_of_read))]
fn reply_for<S: Source>(alloc: Global, command: Command, src: &mut S) -> Result<Owed, Early>
    ensures due { IfSome (S.left src.old)
        (λ input. IfOk result (λ owed. IsDue (Some command) input (debt_of owed).status (debt_of owed).text)) }
    ensures kind { IfOk result (λ owed. IsOfRead (debt_of owed).status) }
    ensures ready { IfOk result MayRun }
    ensures reads { ReadsFor (S.left src.old) (S.left src.new) result }
    ensures end { IfOk result (λ owed. reads command ≡ true → IsOfWhole (debt_of owed).status → IsAtEnd (S.left src.new)) }
    ensures nothing { reads command ≡ false → src.new ≡ src.old }
    ensures unread { reads command ≡ false → ¬ (result ≡ Err Early.ReadFault) }
    ensures fault { result ≡ Err Early.ReadFault → Rose (S.faults src.old) (S.faults src.new) }
    ensures later { S.faults src.old ≤ S.faults src.new }
{
    if reads(command) {
        return reply_to(alloc, command, src);
    }
    Ok(reply_unread(alloc, command)?)
}

/// Answers a call, without the causes of each answer.
#[tactic(auto, using(ev_io::proofs::PayLemmas::plain, ev_io::proofs::PayLemmas::no_usage, crate::proofs::DueLemmas::pays_left, crate::proofs::DueLemmas::pays_memory, crate::proofs::DueLemmas::pays_read_fault))]
fn answer<S: Source, K: Sink>(alloc: Global, words: &Seq<Str>, src: &mut S, out: &mut K) -> Status
    ensures due { IfSome (S.left src.old) (λ input. Pays (K.written out.old) (K.written out.new) result (command_of words.now) input) }
    ensures end { IsReading (command_of words.now) → IsOfWhole result → IsAtEnd (S.left src.new) }
    ensures nothing { ¬ IsReading (command_of words.now) → src.new ≡ src.old }
    ensures unread { ¬ IsReading (command_of words.now) → ¬ (result ≡ Status.ReadFault) }
    ensures reads { Reads (S.left src.old) (S.left src.new) result }
    ensures usage { (result ≡ Status.Usage → command_of words.now ≡ None)
        × (command_of words.now ≡ None → result ≡ Status.Usage ⊎ result ≡ Status.WriteFault) }
    ensures read_fault { result ≡ Status.ReadFault → Rose (S.faults src.old) (S.faults src.new) }
    ensures write_fault { result ≡ Status.WriteFault → Rose (K.faults out.old) (K.faults out.new) }
{
    let Some(command) = command_of(words) else {
        return finish(out, Status::Usage, b"refused usage\n");
    };
    match reply_for(alloc, command, src) {
        Ok(owed) => pay(alloc, owed, out),
        Err(Early::ReadFault) => Status::ReadFault,
        Err(Early::Memory) => Status::Memory,
    }
}

/// Does what the words ask for.
pub fn top<S: Source, K: Sink>(alloc: Global, words: &Seq<Str>, src: &mut S, out: &mut K) -> Status
    // What is appended is what is due for the words and for all that the source has left, and so is the status.
    ensures due { IfSome (S.left src.old) (λ input. Pays (K.written out.old) (K.written out.new) result (command_of words.now) input) }
    ensures end { IsReading (command_of words.now) → IsOfWhole result → IsAtEnd (S.left src.new) }
    ensures reads { Reads (S.left src.old) (S.left src.new) result }
    // Words that are no command, and a script that is generated, leave the source as it was, and tell no fault of it.
    ensures nothing { ¬ IsReading (command_of words.now) → src.new ≡ src.old }
    ensures unread { ¬ IsReading (command_of words.now) → ¬ (result ≡ Status.ReadFault) }

    // Each answer has its cause.
    ensures usage { (result ≡ Status.Usage → command_of words.now ≡ None)
        × (command_of words.now ≡ None → result ≡ Status.Usage ⊎ result ≡ Status.WriteFault) }
    ensures long { IfSome (S.left src.old) (λ input. ComesWhere (λ s. s ≡ Status.TooLong) result (IsLong (command_of words.now) input)) }
    ensures rule { IfSome (S.left src.old) (λ input. (rule : ℕ) → ComesWhere (λ s. s ≡ Status.ScriptRefused rule) result
        (Breaks rule (command_of words.now) input)) }
    ensures refused { IfSome (S.left src.old) (λ input. (vat : ℕ) (part : Part) (kind place : ℕ)
        → ComesWhere (λ s. s ≡ Status.ProgramRefused (refusal vat part kind place)) result (HasFault vat part kind place (command_of words.now) input)) }
    ensures no_tree { IfSome (S.left src.old) (λ input. Follows IsProgramRefused result (HasNoTree (command_of words.now) input)) }
    // None is that a run goes astray.
    ensures never_astray { IfSome (S.left src.old) (λ input. ¬ IsAstray result) }
    ensures fuel { IfSome (S.left src.old) (λ input. (step : ℕ) → ComesWhere (λ s. s ≡ Status.FuelSpent step) result
        (Stops Fuel step (command_of words.now) input)) }
    ensures depth { IfSome (S.left src.old) (λ input. (step : ℕ) → ComesWhere (λ s. s ≡ Status.TooDeep step) result
        (Stops Deep step (command_of words.now) input)) }
    ensures repeated { IfSome (S.left src.old) (λ input. (first second : ℕ) → ComesWhere (λ s. s ≡ Status.WordRepeated first second) result
        (RepeatsWord first second (command_of words.now) input)) }
    ensures read_fault { result ≡ Status.ReadFault → Rose (S.faults src.old) (S.faults src.new) }
    ensures write_fault { result ≡ Status.WriteFault → Rose (K.faults out.old) (K.faults out.new) }
    // A summary is of the script that is generated for its number, which breaks no rule.
    ensures sum { IfSome (S.left src.old) (λ input. SumsUp result (command_of words.now) input) }
    // In the history that is due each message is sent once at most, carried twice at most, and has one fate.
    ensures fates { IfSome (S.left src.old) (λ input. MessagesHaveOneFate (command_of words.now) input) }
    // Each entry of its schedule is idle exactly where nothing is there, and else does what is.
    ensures idle { IfSome (S.left src.old) (λ input. EntriesDoWhatIsThere (command_of words.now) input) }
    // In each world of its run what DeepFrozen stamped reaches no assignable state.
    ensures frozen { IfSome (S.left src.old) (λ input. StampedReachFrozenAlone (command_of words.now) input) }
    // In that run an object uses a reference only by initial conditions, endowment, parenthood or introduction.
    ensures connected { IfSome (S.left src.old) (λ input. UsesAreConnected (command_of words.now) input) }
    // So it is by the lines of its text alone: the judge of uses, whose answer check tells, finds none that fails.
    ensures uses { IfSome (S.left src.old) (λ input. RunsHoldUses (command_of words.now) input) }
    // In that run messages are taken in the order in which they were sent, also on a reference that was handed on.
    ensures order { IfSome (S.left src.old) (λ input. RunsHoldOrder (command_of words.now) input) }
    // In that run a notice severs, and a reference that is broken or severed by a partition stays so.
    ensures severed { IfSome (S.left src.old) (λ input. SeveredStaysBroken (command_of words.now) input) }
    // Where that run stops, what is left of it is what it came to before the step that stopped.
    ensures halted { IfSome (S.left src.old) (λ input. StopsAsItCame (command_of words.now) input) }
    // Without a fault in the call, the answer is what is due, or want of memory.
    ensures complete { IfSome (S.left src.old) (λ input. ¬ Rose (S.faults src.old) (S.faults src.new)
        → ¬ Rose (K.faults out.old) (K.faults out.new)
        → result ≡ Status.Memory ⊎ ((text : List ℕ) × IsDue (command_of words.now) input result text)) }
{
    answer(alloc, words, src, out)
}
