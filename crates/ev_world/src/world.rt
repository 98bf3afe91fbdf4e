//! The state of a run: vats, the ways between them, and the lines so far.

ghost use Rattle.std.specs.Prelude.{◌≡◌, ◌+◌, ◌<◌, ◌^◌, Some, IfOk, OnOk, length, map, slice_get, zero};
ghost use Rattle.def_run.specs.Numbers.{Runs, Vats, begins, open_from, open_member, step, step_number, steps_from};
ghost use Rattle.def_run.specs.World as their;
ghost use Rattle.def_run.specs.World.{Program as TheirProgram, Script as TheirScript};
ghost use Rattle.ev_world.specs.Ends.{course_of};
ghost use Rattle.ev_world.specs.Running.{script_of};
ghost use Rattle.ev_world.specs.Standing.{AreReady, CourseIs, IsWorld, RunIs};
ghost use Rattle.ev_world.specs.Steadily.{OpensSteadily, StepsSteadily};
ghost use Rattle.def_run.specs.Steady.{RunsSteadily};
ghost use Rattle.law_schedule.specs.Scripts.{machine_entry};

use crate::exporting::exports_of;
use crate::losing::tell_lost_to;
use crate::starting::vat_at;
use def_event::Event;
use ev_base::{Limits, Memory, Seq, VatId, Word};
use ev_intro::Words;
use ev_resident::{Resident, Told, VatStop};
use ev_room::Program;
use ev_script::{Entry, Script};
use ev_step_text::Account;
use ev_ways::Ways;
use std::alloc::Global;

/// Why a run stopped, and the number of that step.
#[derive(Clone, Copy)]
pub(crate) struct Halted {
    pub(crate) stop: VatStop,
    pub(crate) step: u64,
}

/// The state of a run. After a step that answered an error it is of no use any more, but for its history.
#[derive(Drop)]
pub(crate) struct World {
    /// By their numbers.
    pub(crate) residents: Vec<Resident>,
    pub(crate) programs: Vec<Program>,
    /// Of each vat the nouns for the vats that it knows, in order.
    pub(crate) nouns: Vec<Seq<Word>>,
    pub(crate) ways: Ways,
    pub(crate) words: Words,
    pub(crate) fuel: u32,
    pub(crate) limits: Limits,
    /// Whether frames are told.
    pub(crate) wire: bool,
    pub(crate) history: Account,
}

impl World {
    /// The opening turn of that vat.
    pub(crate) fn open(&mut self, alloc: Global, vat: usize) -> Result<(), VatStop>
        requires ready { AreReady self.old.residents.items }
        ensures step { (S : TheirScript) (w : Vats) (p : TheirProgram) → slice_get S.vats vat ≡ Some p → IsWorld S w self.old → OpensSteadily S vat p w
            → CourseIs S result vat (open_member S vat p w (slice_get w.members vat)) self.new }
        ensures ready { OnOk result (AreReady self.new.residents.items) }
        ensures wire { self.new.wire ≡ self.old.wire }
    {
        let count = self.residents.len();
        let me = vat_at(vat)?;
        let Some(program) = self.programs.get(vat) else {
            return Err(VatStop::Memory);
        };
        let Some(nouns) = self.nouns.get(vat) else {
            return Err(VatStop::Memory);
        };
        let Some(resident) = self.residents.get_mut(vat) else {
            return Err(VatStop::Memory);
        };
        let before = exports_of(alloc, &resident.member, count)?;
        let sendings = resident.first_turn(
            self.fuel,
            &mut self.words,
            program,
            nouns.as_slice(),
            self.limits,
        )?;
        self.history.push(alloc, Event::Open(me))?;
        self.finish(
            alloc,
            me,
            before.as_slice(),
            None,
            Told::new(alloc),
            sendings,
        )?;
        Ok(())
    }

    /// A vat takes its next turn.
    fn turn(&mut self, alloc: Global, vat: VatId, number: u64) -> Result<(), VatStop>
        requires ready { AreReady self.old.residents.items }
        ensures step { (S : TheirScript) (w : Vats) → IsWorld S w self.old → StepsSteadily S (their.Turn vat) number w
            → CourseIs S result (step_number S number) (step S (their.Turn vat) number w) self.new }
        ensures ready { OnOk result (AreReady self.new.residents.items) }
        ensures wire { self.new.wire ≡ self.old.wire }
    {
        let count = self.residents.len();
        let index = vat.0 as usize;
        let Some(program) = self.programs.get(index) else {
            return Err(VatStop::Memory);
        };
        let Some(resident) = self.residents.get_mut(index) else {
            return Err(VatStop::Memory);
        };
        let before = exports_of(alloc, &resident.member, count)?;
        let Some(sendings) = resident.turn(self.fuel, &mut self.words, program, self.limits)? else {
            self.fuel = resident.rest(&mut self.words);
            self.history.push(alloc, Event::Idle(number))?;
            return Ok(());
        };
        self.history.push(alloc, Event::Turn(number, vat))?;
        self.finish(
            alloc,
            vat,
            before.as_slice(),
            None,
            Told::new(alloc),
            sendings,
        )?;
        Ok(())
    }

    /// The link of two vats is cut. What is under way on it is lost.
    fn cut(&mut self, alloc: Global, from: VatId, to: VatId, number: u64) -> Result<(), VatStop>
        requires ready { AreReady self.old.residents.items }
        ensures step { (S : TheirScript) (w : Vats) → IsWorld S w self.old → StepsSteadily S (their.CutLink from to) number w
            → CourseIs S result (step_number S number) (step S (their.CutLink from to) number w) self.new }
        ensures ready { OnOk result (AreReady self.new.residents.items) }
        ensures wire { self.new.wire ≡ self.old.wire }
    {
        self.history.push(alloc, Event::Cut(number, from, to))?;
        let there = self.ways.cut(alloc, from, to);
        tell_lost_to(alloc, there, &mut self.history)?;
        let back = self.ways.cut(alloc, to, from);
        tell_lost_to(alloc, back, &mut self.history)?;
        Ok(())
    }

    /// A vat notices that its link with another is cut.
    fn notice(&mut self, alloc: Global, vat: VatId, peer: VatId, number: u64) -> Result<(), VatStop>
        requires ready { AreReady self.old.residents.items }
        ensures step { (S : TheirScript) (w : Vats) → IsWorld S w self.old → StepsSteadily S (their.NoticeLink vat peer) number w
            → CourseIs S result (step_number S number) (step S (their.NoticeLink vat peer) number w) self.new }
        ensures ready { OnOk result (AreReady self.new.residents.items) }
        ensures wire { self.new.wire ≡ self.old.wire }
    {
        let count = self.residents.len();
        let Some(resident) = self.residents.get_mut(vat.0 as usize) else {
            return Err(VatStop::Memory);
        };
        let before = exports_of(alloc, &resident.member, count)?;
        let sendings = resident.notice(self.fuel, &mut self.words, peer)?;
        self.history.push(alloc, Event::Notice(number, vat, peer))?;
        self.finish(
            alloc,
            vat,
            before.as_slice(),
            None,
            Told::new(alloc),
            sendings,
        )?;
        Ok(())
    }

    /// The step of the entry of that number, counted from 1.
    pub(crate) fn step(&mut self, alloc: Global, entry: Entry, number: u64) -> Result<(), VatStop>
        requires ready { AreReady self.old.residents.items }
        ensures step { (S : TheirScript) (w : Vats) → IsWorld S w self.old → StepsSteadily S (machine_entry entry) number w
            → CourseIs S result (step_number S number) (step S (machine_entry entry) number w) self.new }
        ensures ready { OnOk result (AreReady self.new.residents.items) }
        ensures wire { self.new.wire ≡ self.old.wire }
    {
        match entry {
            Entry::Turn(vat) => self.turn(alloc, vat, number),
            Entry::Carry(from, to) => self.carry(alloc, from, to, number),
            Entry::Cut(from, to) => self.cut(alloc, from, to, number),
            Entry::Notice(vat, peer) => self.notice(alloc, vat, peer, number),
        }
    }

    /// The opening turns of so many vats, up to a stop.
    fn open_all(&mut self, alloc: Global, vats: usize) -> Result<(), Halted>
        requires ready { AreReady self.old.residents.items }
        ensures opened { (S : TheirScript) → length S.vats ≡ vats → RunsSteadily S → IsWorld S (begins S) self.old → RunIs S result (open_from S zero S.vats (begins S)) self.new }
        ensures ready { OnOk result (AreReady self.new.residents.items) }
        ensures wire { self.new.wire ≡ self.old.wire }
    {
        for vat in 0..vats {
            if let Err(stop) = self.open(alloc, vat) {
                return Err(Halted {
                    stop,
                    step: vat as u64,
                });
            }
        }
        Ok(())
    }

    /// The steps of the entries of a schedule, up to a stop, where so many vats were opened.
    fn step_all(&mut self, alloc: Global, vats: u64, schedule: &[Entry]) -> Result<(), Halted>
        requires ready { AreReady self.old.residents.items }
        requires few { vats + length schedule.now < 2 ^ 64 }
        ensures stepped { (S : TheirScript) (w : Vats) → length S.vats ≡ vats → S.schedule ≡ map machine_entry schedule.now → RunsSteadily S → open_from S zero S.vats (begins S) ≡ Runs w → IsWorld S w self.old
            → RunIs S result (steps_from S S.schedule 1 w) self.new }
        ensures ready { OnOk result (AreReady self.new.residents.items) }
        ensures wire { self.new.wire ≡ self.old.wire }
    {
        for (index, entry) in schedule.iter().enumerate() {
            if let Err(stop) = self.step(alloc, *entry, index as u64 + 1) {
                return Err(Halted {
                    stop,
                    step: vats + index as u64,
                });
            }
        }
        Ok(())
    }

    /// All steps of a run, up to a stop.
    pub(crate) fn go_on(
        &mut self,
        alloc: Global,
        vats: usize,
        schedule: &[Entry],
    ) -> Result<(), Halted>
        requires ready { AreReady self.old.residents.items }
        requires few { vats + length schedule.now < 2 ^ 64 }
        ensures went { (S : TheirScript) → length S.vats ≡ vats → S.schedule ≡ map machine_entry schedule.now → RunsSteadily S → IsWorld S (begins S) self.old → RunIs S result (course_of S) self.new }
        ensures ready { OnOk result (AreReady self.new.residents.items) }
        ensures wire { self.new.wire ≡ self.old.wire }
    {
        if let Err(halted) = self.open_all(alloc, vats) {
            return Err(halted);
        }
        self.step_all(alloc, vats as u64, schedule)
    }
}
