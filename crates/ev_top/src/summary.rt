//! What is due for the script that is generated for a number, once it was run: a summary of its run.

ghost use Rattle.std.specs.Prelude.{◌≡◌, ◌+◌, [], IfOk, length, string_bytes};
ghost use Rattle.ev_generate.specs.Generated.{generated};
ghost use Rattle.ev_script.specs.Rules.{IsAdmitted};
ghost use Rattle.ev_top.specs.RunDue.{IsDueOfScript, IsDueOfTrees, IsDueOfVats};
ghost use Rattle.ev_top.specs.Ends.{summed_by};
ghost use Rattle.ev_top.specs.Programs.{AreRead, trees_of};
ghost use Rattle.ev_script.specs.Script.{read as script_from};
ghost use Rattle.ev_top.specs.Summary.{summary_of};

use crate::run::{LIMITS, status_by};
use crate::sources::{Unread, read_sources};
use ev_base::Memory;
use ev_generate::generate;
use ev_io::{Reply, reply_rule};
use ev_reader::Scoped;
use ev_script::{Script, ScriptFault, read_script};
use ev_summary::summarize;
use ev_world::{Ran, RunEnd, run_events};
use std::alloc::Global;

/// The steps of a run that goes to its end: the opening turns and the entries.
fn steps_of(script: &Script) -> u64
    requires { IsAdmitted script.now }
    ensures { result ≡ length script.now.vats + length script.now.schedule }
{
    script.vats.len() as u64 + script.schedule.len() as u64
}

/// The five lines of a run of so many steps, or the line alone that tells where it stopped.
fn summary_text(alloc: Global, ran: &Ran, steps: u64) -> Result<String, Memory>
    ensures { IfOk result (λ text. string_bytes text ≡ summed_by ran.now.history steps ran.now.end) }
{
    match ran.end {
        RunEnd::Done => summarize(alloc, ran.history.events(), steps),
        RunEnd::FuelSpent(step) => Ok(format!(in alloc; "stop fuel {step}\n")?),
        RunEnd::TooDeep(step) => Ok(format!(in alloc; "stop depth {step}\n")?),
        RunEnd::WordRepeated(first, second) => {
            Ok(format!(in alloc; "stop word {first} {second}\n")?)
        }
        RunEnd::Astray(step) => Ok(format!(in alloc; "stop astray {step}\n")?),
    }
}

/// The summary of the run of a script whose programs are these.
fn sum_run(alloc: Global, script: &Script, programs: Vec<Scoped>) -> Result<Reply, Memory>
    requires admitted { IsAdmitted script.now }
    requires read { AreRead script.now.vats script.now.vats programs.items }
    ensures { IfOk result (λ reply. IsDueOfTrees summary_of script.now (trees_of programs.items) reply.status (string_bytes reply.text)) }
{
    let ran = run_events(alloc, script, programs, LIMITS)?;
    let text = summary_text(alloc, &ran, steps_of(script))?;
    Ok(Reply {
        status: status_by(script, ran.end),
        text,
    })
}

/// The summary of the run of a script, or the refusal of the first source that is refused.
fn sum_script(alloc: Global, script: &Script) -> Result<Reply, Memory>
    requires { IsAdmitted script.now }
    ensures { IfOk result (λ reply. IsDueOfVats summary_of script.now [] script.now.vats reply.status (string_bytes reply.text)) }
{
    match read_sources(alloc, script) {
        Ok(programs) => sum_run(alloc, script, programs),
        Err(Unread::Refused(reply)) => Ok(reply),
        Err(Unread::Memory) => Err(Memory),
    }
}

/// The summary of the run of the script that bytes spell, or their refusal.
fn sum_bytes(alloc: Global, bytes: &[u8]) -> Result<Reply, Memory>
    ensures { IfOk result (λ reply. IsDueOfScript summary_of (script_from bytes.now) reply.status (string_bytes reply.text)) }
{
    match read_script(alloc, bytes) {
        Ok(script) => sum_script(alloc, &script),
        Err(ScriptFault::Rule(rule)) => reply_rule(alloc, rule),
        Err(ScriptFault::Memory) => Err(Memory),
    }
}

/// The summary of the run of the script that is generated for a number.
pub fn sum_generated(alloc: Global, number: u32) -> Result<Reply, Memory>
    ensures { IfOk result (λ reply. IsDueOfScript summary_of (script_from (generated number)) reply.status (string_bytes reply.text)) }
{
    let text = generate(alloc, number)?;
    sum_bytes(alloc, text.as_bytes())
}
