//! The steps of a run, one after the other, each written before the next.

ghost use Rattle.std.specs.Prelude.{◌≡◌, ◌≤◌, ◌+◌, ◌<◌, ◌^◌, Err, List, ℕ, OnOk, Option, Some, length, map, slice_get, zero};
ghost use Rattle.def_run.specs.Numbers.{Runs, Vats, begins, open_from, open_member, step, step_number, steps_from};
ghost use Rattle.def_run.specs.Text.{vat_names};
ghost use Rattle.def_run.specs.World.{Program};
ghost use Rattle.def_run.specs.World.{Script as TheirScript};
ghost use Rattle.ev_io.specs.Causes.{Rose};
ghost use Rattle.ev_world.specs.Ends.{course_of};
ghost use Rattle.ev_world.specs.Standing.{AreReady, IsWorld};
ghost use Rattle.ev_world.specs.Steadily.{OpensSteadily, StepsSteadily};
ghost use Rattle.ev_world.specs.Writing.{GoesTo, IsCourse, IsWritten};
ghost use Rattle.def_run.specs.Steady.{RunsSteadily};
ghost use Rattle.law_schedule.specs.Scripts.{machine_entry};

use crate::world::World;
use crate::writing::{Halt, Unfinished, end_step};
use ev_io::Sink;
use ev_script::Entry;
use std::alloc::Global;

/// The opening turn of that vat.
fn open<K: Sink>(alloc: Global, world: &mut World, vat: usize, out: &mut K) -> Result<(), Halt>
    requires ready { AreReady world.old.residents.items }
    ensures step { (S : TheirScript) (w : Vats) (p : Program) (held : Option (List ℕ)) → slice_get S.vats vat ≡ Some p → IsWritten S (vat_names S) world.old.wire held (K.written out.old) w world.old → OpensSteadily S vat p w
        → IsCourse S (vat_names S) world.old.wire held (K.written out.new) result (open_member S vat p w (slice_get w.members vat)) world.new }
    ensures ready { OnOk result (AreReady world.new.residents.items) }
    ensures wire { world.new.wire ≡ world.old.wire }
    ensures later { K.faults out.old ≤ K.faults out.new }
    ensures fault { result ≡ Err (Halt.Unwritten Unfinished.WriteFault) → Rose (K.faults out.old) (K.faults out.new) }
{
    let opened = world.open(alloc, vat);
    end_step(alloc, world, opened, vat as u64, out)
}

/// The step of an entry: the one of this number among the entries, counted from 1, and of that one among all steps.
fn take<K: Sink>(
    alloc: Global,
    world: &mut World,
    entry: Entry,
    number: u64,
    place: u64,
    out: &mut K,
) -> Result<(), Halt>
    requires ready { AreReady world.old.residents.items }
    ensures step { (S : TheirScript) (w : Vats) (held : Option (List ℕ)) → step_number S number ≡ place → IsWritten S (vat_names S) world.old.wire held (K.written out.old) w world.old → StepsSteadily S (machine_entry entry) number w
        → IsCourse S (vat_names S) world.old.wire held (K.written out.new) result (step S (machine_entry entry) number w) world.new }
    ensures ready { OnOk result (AreReady world.new.residents.items) }
    ensures wire { world.new.wire ≡ world.old.wire }
    ensures later { K.faults out.old ≤ K.faults out.new }
    ensures fault { result ≡ Err (Halt.Unwritten Unfinished.WriteFault) → Rose (K.faults out.old) (K.faults out.new) }
{
    let taken = world.step(alloc, entry, number);
    end_step(alloc, world, taken, place, out)
}

/// The opening turns of so many vats.
fn open_all<K: Sink>(alloc: Global, world: &mut World, vats: usize, out: &mut K) -> Result<(), Halt>
    requires ready { AreReady world.old.residents.items }
    ensures opened { (S : TheirScript) → length S.vats ≡ vats → RunsSteadily S → IsWorld S (begins S) world.old
        → GoesTo S (vat_names S) world.old.wire (K.written out.old) (K.written out.new) result (open_from S zero S.vats (begins S)) world.new }
    ensures ready { OnOk result (AreReady world.new.residents.items) }
    ensures wire { world.new.wire ≡ world.old.wire }
    ensures later { K.faults out.old ≤ K.faults out.new }
    ensures fault { result ≡ Err (Halt.Unwritten Unfinished.WriteFault) → Rose (K.faults out.old) (K.faults out.new) }
{
    for vat in 0..vats {
        if let Err(halt) = open(alloc, world, vat, out) {
            return Err(halt);
        }
    }
    Ok(())
}

/// The steps of the entries of a schedule, where so many vats were opened.
fn take_all<K: Sink>(
    alloc: Global,
    world: &mut World,
    vats: u64,
    schedule: &[Entry],
    out: &mut K,
) -> Result<(), Halt>
    requires ready { AreReady world.old.residents.items }
    requires few { vats + length schedule.now < 2 ^ 64 }
    ensures stepped { (S : TheirScript) (w : Vats) (held : Option (List ℕ)) → length S.vats ≡ vats → S.schedule ≡ map machine_entry schedule.now → RunsSteadily S → open_from S zero S.vats (begins S) ≡ Runs w
        → IsWritten S (vat_names S) world.old.wire held (K.written out.old) w world.old → GoesTo S (vat_names S) world.old.wire held (K.written out.new) result (steps_from S S.schedule 1 w) world.new }
    ensures ready { OnOk result (AreReady world.new.residents.items) }
    ensures wire { world.new.wire ≡ world.old.wire }
    ensures later { K.faults out.old ≤ K.faults out.new }
    ensures fault { result ≡ Err (Halt.Unwritten Unfinished.WriteFault) → Rose (K.faults out.old) (K.faults out.new) }
{
    for (index, entry) in schedule.iter().enumerate() {
        let number = index as u64 + 1;
        let place = vats + index as u64;
        if let Err(halt) = take(alloc, world, *entry, number, place, out) {
            return Err(halt);
        }
    }
    Ok(())
}

/// All steps of a run: the opening turns of so many vats, and the entries of its schedule.
pub(crate) fn go_on<K: Sink>(
    alloc: Global,
    world: &mut World,
    vats: usize,
    schedule: &[Entry],
    out: &mut K,
) -> Result<(), Halt>
    requires ready { AreReady world.old.residents.items }
    requires few { vats + length schedule.now < 2 ^ 64 }
    ensures went { (S : TheirScript) → length S.vats ≡ vats → S.schedule ≡ map machine_entry schedule.now → RunsSteadily S → IsWorld S (begins S) world.old
        → GoesTo S (vat_names S) world.old.wire (K.written out.old) (K.written out.new) result (course_of S) world.new }
    ensures wire { world.new.wire ≡ world.old.wire }
    ensures later { K.faults out.old ≤ K.faults out.new }
    ensures fault { result ≡ Err (Halt.Unwritten Unfinished.WriteFault) → Rose (K.faults out.old) (K.faults out.new) }
{
    if let Err(halt) = open_all(alloc, world, vats, out) {
        return Err(halt);
    }
    take_all(alloc, world, vats as u64, schedule, out)
}
