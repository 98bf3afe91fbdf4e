//! The run of a script, written as it happens.

ghost use Rattle.std.specs.Prelude.{◌≡◌, ◌≤◌, Bool, Err, List, ℕ, Option, length};
ghost use Rattle.def_run.specs.Numbers.{Runs, Vats, run};
ghost use Rattle.def_run.specs.Text.{vat_names};
ghost use Rattle.def_run.specs.World.{Script as TheirScript};
ghost use Rattle.ev_io.specs.Causes.{Rose};
ghost use Rattle.ev_script.specs.Rules.{IsAdmitted};
ghost use Rattle.ev_world.specs.Ends.{course_of};
ghost use Rattle.ev_world.specs.Running.{script_of};
ghost use Rattle.ev_world.specs.Writing.{IsWritten, StopsAs, WritesRun};
ghost use Rattle.def_run.specs.Steady.{RunsSteadily};

use crate::going::go_on;
use crate::run::{RunEnd, names_of, stopped};
use crate::world::{Halted, World};
use crate::writing::{Halt, Unfinished, write_account, write_text};
use ev_base::Limits;
use ev_io::Sink;
use ev_reader::Scoped;
use ev_script::Script;
use ev_step_text::Account;
use std::alloc::Global;

/// The line of a run that stopped.
fn write_stop<K: Sink>(alloc: Global, halted: Halted, out: &mut K) -> Result<RunEnd, Unfinished>
    ensures text { (S : TheirScript) (wire : Bool) (held : Option (List ℕ)) → StopsAs halted.stop halted.step (vat_names S) wire held (K.written out.old) (run S)
        → WritesRun S wire held (K.written out.new) result }
    ensures later { K.faults out.old ≤ K.faults out.new }
    ensures fault { result ≡ Err Unfinished.WriteFault → Rose (K.faults out.old) (K.faults out.new) }
{
    let Ok(told) = stopped(alloc, halted.stop, halted.step) else {
        return Err(Unfinished::Memory);
    };
    if let Err(why) = write_text(out, told.text.as_bytes()) {
        return Err(why);
    }
    Ok(told.end)
}

/// The lines of what is left at the end of a run.
fn write_left<K: Sink>(alloc: Global, world: World, out: &mut K) -> Result<RunEnd, Unfinished>
    ensures text { (S : TheirScript) (w : Vats) (held : Option (List ℕ)) → course_of S ≡ Runs w → IsWritten S (vat_names S) world.wire held (K.written out.old) w world
        → WritesRun S world.wire held (K.written out.new) result }
    ensures later { K.faults out.old ≤ K.faults out.new }
    ensures fault { result ≡ Err Unfinished.WriteFault → Rose (K.faults out.old) (K.faults out.new) }
{
    let Ok(account) = world.close(alloc) else {
        return Err(Unfinished::Memory);
    };
    if let Err(why) = write_account(alloc, &account, out) {
        return Err(why);
    }
    Ok(RunEnd::Done)
}

/// Runs a script and writes what it tells: the opening turn of each vat, in order, each with its program, and the entries of the
/// schedule. No node begins below `limits.depth` levels. The text has the frames where `wire` asks for them.
///
/// The lines of a step are written, in one call of `write_all`, before the next step begins; a step that has none writes nothing. So memory
/// grows with what vats and links hold, and not with the text. A run that is not finished has written a front of its text.
pub fn write_run<K: Sink>(
    alloc: Global,
    script: &Script,
    programs: Vec<Scoped>,
    limits: Limits,
    wire: bool,
    out: &mut K,
) -> Result<RunEnd, Unfinished>
    requires admitted { IsAdmitted script.now }
    requires programs { length programs.items ≡ length script.now.vats }
    ensures text { RunsSteadily (script_of script.now programs.items limits.depth)
        → WritesRun (script_of script.now programs.items limits.depth) wire (K.written out.old) (K.written out.new) result }
    ensures later { K.faults out.old ≤ K.faults out.new }
    ensures fault { result ≡ Err Unfinished.WriteFault → Rose (K.faults out.old) (K.faults out.new) }
{
    let vats = script.vats.as_slice();
    let Ok(names) = names_of(alloc, vats) else {
        return Err(Unfinished::Memory);
    };
    let account = Account::of_text(alloc, names);
    let Ok(mut world) = World::start(alloc, script, programs, limits, wire, account) else {
        return Err(Unfinished::Memory);
    };
    match go_on(
        alloc,
        &mut world,
        vats.len(),
        script.schedule.as_slice(),
        out,
    ) {
        Ok(()) => write_left(alloc, world, out),
        Err(Halt::Stopped(halted)) => write_stop(alloc, halted, out),
        Err(Halt::Unwritten(why)) => Err(why),
    }
}
