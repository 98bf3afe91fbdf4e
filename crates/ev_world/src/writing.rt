//! What a step of a run told is written before the next one begins.

ghost use Rattle.std.specs.Prelude.{◌≡◌, ◌≤◌, List, ℕ, OnOk, Option, Err};
ghost use Rattle.std.specs.Io.KnownBytes.{Appends};
ghost use Rattle.def_event.specs.Lines.{render};
ghost use Rattle.def_event.specs.declared.event.Event.{Event as Told};
ghost use Rattle.def_run.specs.Numbers.{Course, Vats};
ghost use Rattle.def_run.specs.Text.{vat_names};
ghost use Rattle.def_run.specs.World.{Script as TheirScript};
ghost use Rattle.ev_io.specs.Causes.{Rose};
ghost use Rattle.ev_step_text.specs.Accounts.{IsAccount};
ghost use Rattle.ev_world.specs.Standing.{AreReady, CourseIs};
ghost use Rattle.ev_world.specs.Writing.{IsCourse, IsStep, WritesSo, text_at};

use crate::world::{Halted, World};
use ev_base::{Seq, Str};
use ev_event::History;
use ev_io::{Sink, write_all};
use ev_resident::VatStop;
use ev_step_text::{Account, Form};
use std::alloc::Global;

/// Why a run was not written to its end.
#[derive(Clone, Copy, PartialEq, Eq)]
pub enum Unfinished {
    /// The sink failed.
    WriteFault,
    Memory,
}

/// Why the steps of a run did not go on.
#[derive(Clone, Copy)]
pub(crate) enum Halt {
    /// One of them stopped.
    Stopped(Halted),
    /// What they told was not written.
    Unwritten(Unfinished),
}

/// Writes a text.
pub(crate) fn write_text<K: Sink>(out: &mut K, text: &[u8]) -> Result<(), Unfinished>
    ensures text { WritesSo (K.written out.old) (K.written out.new) result text.now }
    ensures later { K.faults out.old ≤ K.faults out.new }
    ensures fault { result ≡ Err Unfinished.WriteFault → Rose (K.faults out.old) (K.faults out.new) }
{
    match write_all(out, text) {
        Ok(()) => Ok(()),
        Err(_) => Err(Unfinished::WriteFault),
    }
}

/// Writes the text of events, where the vats have these names.
fn write_events<K: Sink>(
    alloc: Global,
    names: &Seq<Str>,
    events: &History,
    out: &mut K,
) -> Result<(), Unfinished>
    ensures text { WritesSo (K.written out.old) (K.written out.new) result (render names.now events.now) }
    ensures later { K.faults out.old ≤ K.faults out.new }
    ensures fault { result ≡ Err Unfinished.WriteFault → Rose (K.faults out.old) (K.faults out.new) }
{
    let Ok(text) = events.render(alloc, names) else {
        return Err(Unfinished::Memory);
    };
    write_text(out, text.as_str().as_bytes())
}

/// Writes the text of what is told.
pub(crate) fn write_account<K: Sink>(
    alloc: Global,
    account: &Account,
    out: &mut K,
) -> Result<(), Unfinished>
    ensures text { (names : List (List ℕ)) (es : List Told) → IsAccount names account.now es → WritesSo (K.written out.old) (K.written out.new) result (render names es) }
    ensures later { K.faults out.old ≤ K.faults out.new }
    ensures fault { result ≡ Err Unfinished.WriteFault → Rose (K.faults out.old) (K.faults out.new) }
{
    match &account.form {
        Form::Events(events) => write_events(alloc, &account.names, events, out),
        Form::Text(text) => write_text(out, text.as_bytes()),
    }
}

/// Ends a step of that number, which came to that: what it told is written, and let go of.
pub(crate) fn end_step<K: Sink>(
    alloc: Global,
    world: &mut World,
    done: Result<(), VatStop>,
    step: u64,
    out: &mut K,
) -> Result<(), Halt>
    ensures written { (S : TheirScript) (w : Vats) (course alone : Course) (held : Option (List ℕ)) → Appends held (K.written out.old) (text_at (vat_names S) world.old.wire w) → IsStep w course alone
        → CourseIs S done step alone world.old → IsCourse S (vat_names S) world.old.wire held (K.written out.new) result course world.new }
    ensures ready { OnOk done (AreReady world.old.residents.items) → OnOk result (AreReady world.new.residents.items) }
    ensures wire { world.new.wire ≡ world.old.wire }
    ensures later { K.faults out.old ≤ K.faults out.new }
    ensures fault { result ≡ Err (Halt.Unwritten Unfinished.WriteFault) → Rose (K.faults out.old) (K.faults out.new) }
{
    match done {
        Err(stop) => Err(Halt::Stopped(Halted { stop, step })),
        Ok(()) => {
            if let Err(why) = write_account(alloc, &world.history, out) {
                return Err(Halt::Unwritten(why));
            }
            world.history.clear();
            Ok(())
        }
    }
}
