//! What is due for the bytes of a script: its run, or a refusal.

ghost use Rattle.std.specs.Prelude.{◌≡◌, ◌≤◌, [], IfOk};
ghost use Rattle.ev_io.specs.Causes.{Rose};
ghost use Rattle.ev_script.specs.Rules.{IsAdmitted};
ghost use Rattle.ev_top.specs.RunDue.{IsDueOfScript, IsDueOfVats, MayRun, debt_of};
ghost use Rattle.ev_io.specs.Paying.{IsOfWhole, Settles};
ghost use Rattle.ev_top.specs.RunEnds.{status_by};
ghost use Rattle.ev_top.specs.Machine.{text_of, vat_of_entry, vat_of_step};
ghost use Rattle.ev_script.specs.Script.{read as script_from};

use crate::reply::{Owed, Prepared};
use crate::sources::{Unread, read_sources};
use ev_base::{Limits, Memory, VatId};
use ev_io::{Refusal, Sink, Stage, Status, reply_rule};
use ev_script::{Entry, Script, ScriptFault, read_script};
use ev_world::{RunEnd, Unfinished, write_run};
use std::alloc::Global;

/// The limits of each run: the greatest depth at which a node begins.
pub const LIMITS: Limits = Limits { depth: 20_000 };

/// The vat that an entry has take a step. No vat takes one in a cut.
fn vat_of_entry(entry: Entry) -> VatId
    ensures { result ≡ vat_of_entry entry }
{
    match entry {
        Entry::Turn(vat) => vat,
        Entry::Carry(_, to) => to,
        Entry::Cut(vat, _) => vat,
        Entry::Notice(vat, _) => vat,
    }
}

/// The vat whose step that is. Steps are counted from 0 over the opening turns and then the entries.
fn vat_of_step(script: &Script, step: u64) -> VatId
    requires { IsAdmitted script.now }
    ensures { result ≡ vat_of_step script.now step }
{
    let openings = script.vats.len() as u64;
    if step < openings {
        return VatId(step as u8);
    }
    match script.schedule.as_slice().get((step - openings) as usize) {
        Some(entry) => vat_of_entry(*entry),
        None => VatId(0),
    }
}

/// The status of a run of a script that ended so.
pub fn status_by(script: &Script, end: RunEnd) -> Status
    requires { IsAdmitted script.now }
    ensures { result ≡ status_by script.now end }
{
    match end {
        RunEnd::Done => Status::Done,
        RunEnd::FuelSpent(step) => Status::FuelSpent(step),
        RunEnd::TooDeep(step) => Status::TooDeep(step),
        RunEnd::WordRepeated(first, second) => Status::WordRepeated(first, second),
        RunEnd::Astray(step) => Status::ProgramRefused(Refusal {
            vat: vat_of_step(script, step).0,
            stage: Stage::Astray,
            kind: 0,
            place: 0,
        }),
    }
}

/// Has a script run whose programs were read, and writes what the run tells as it happens.
pub fn write_prepared<K: Sink>(alloc: Global, prepared: Prepared, out: &mut K) -> Status
    requires { MayRun (Owed.Run prepared) }
    ensures text { Settles (K.written out.old) (K.written out.new) (debt_of (Owed.Run prepared)) result }
    ensures later { K.faults out.old ≤ K.faults out.new }
    ensures fault { result ≡ Status.WriteFault → Rose (K.faults out.old) (K.faults out.new) }
{
    let Prepared {
        script,
        programs,
        wire,
    } = prepared;
    match write_run(alloc, &script, programs, LIMITS, wire, out) {
        Ok(end) => status_by(&script, end),
        Err(Unfinished::WriteFault) => Status::WriteFault,
        Err(Unfinished::Memory) => Status::Memory,
    }
}

/// The run of a script, or the refusal of the first source that is refused. Its status is one of a call that read all of its input.
fn owed_script(alloc: Global, script: Script, wire: bool) -> Result<Owed, Memory>
    requires { IsAdmitted script }
    ensures due { IfOk result (λ owed. IsDueOfVats (text_of wire) script [] script.vats (debt_of owed).status (debt_of owed).text) }
    ensures whole { IfOk result (λ owed. IsOfWhole (debt_of owed).status) }
    ensures ready { IfOk result MayRun }
{
    match read_sources(alloc, &script) {
        Ok(programs) => Ok(Owed::Run(Prepared {
            script,
            programs,
            wire,
        })),
        Err(Unread::Refused(reply)) => Ok(Owed::Reply(reply)),
        Err(Unread::Memory) => Err(Memory),
    }
}

/// The run of the script that bytes spell, or their refusal. The text has the frames where `wire` asks for them.
pub fn owed_bytes(alloc: Global, bytes: &[u8], wire: bool) -> Result<Owed, Memory>
    ensures due { IfOk result (λ owed. IsDueOfScript (text_of wire) (script_from bytes.now) (debt_of owed).status (debt_of owed).text) }
    ensures whole { IfOk result (λ owed. IsOfWhole (debt_of owed).status) }
    ensures ready { IfOk result MayRun }
{
    match read_script(alloc, bytes) {
        Ok(script) => owed_script(alloc, script, wire),
        Err(ScriptFault::Rule(rule)) => Ok(Owed::Reply(reply_rule(alloc, rule)?)),
        Err(ScriptFault::Memory) => Err(Memory),
    }
}
