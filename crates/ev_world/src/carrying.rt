//! A note arrives.

ghost use Rattle.std.specs.Prelude.{◌≡◌, ◌∷◌, [], ℕ, List, Some, IfOk, OnOk};
ghost use Rattle.def_event.specs.declared.event.Event.TheVariants as line;
ghost use Rattle.def_run.specs.Numbers.{Vats, step, step_number};
ghost use Rattle.def_run.specs.World as their;
ghost use Rattle.def_run.specs.World.{Script as TheirScript};
ghost use Rattle.ev_step_text.specs.Accounts.{More};
ghost use Rattle.ev_ways.specs.Rows.{Lane, behind, changed, next_at};
ghost use Rattle.ev_world.specs.Carrying.{HearsFrame, TellsFrame, with_ways};
ghost use Rattle.ev_world.specs.Standing.{AreReady, CourseIs, IsWorld, told_so};
ghost use Rattle.ev_world.specs.Steadily.{StepsSteadily};

use crate::exporting::exports_of;
use crate::world::World;
use def_event::{Boxed, Event};
use ev_base::{Memory, VatId};
use ev_resident::{Arrival, Resident, Sending, Told, VatStop, told_of};
use ev_step_text::Account;
use ev_ways::Frame;
use ev_wire::News;
use std::alloc::Global;

/// What a frame came to at the vat that heard it, which is still to be told.
#[derive(Drop)]
struct Heard {
    /// How much the vat had exported to each before.
    before: Vec<u64>,
    told: Told,
    sendings: Vec<Sending>,
}

/// What a frame of one vat told another of numbers, once that one heard it. So much of the first vat stood there before.
fn told_for(
    alloc: Global,
    residents: &[Resident],
    from: VatId,
    to: VatId,
    first: u64,
    news: &News,
    frame: &Frame,
) -> Result<Told, Memory>
    ensures { IfOk result (λ told. TellsFrame residents.now from to first news.now frame.now told) }
{
    let Some(exporter) = residents.get(from.0 as usize) else {
        return Err(Memory);
    };
    let Some(receiver) = residents.get(to.0 as usize) else {
        return Err(Memory);
    };
    let words = &receiver.member.vat().inside().words;
    told_of(
        alloc,
        exporter,
        to,
        first,
        news,
        frame.message,
        frame.asks,
        words,
    )
}

/// A note was carried; its frame is told where frames are.
fn tell_note(
    history: &mut Account,
    alloc: Global,
    wire: bool,
    number: u64,
    from: VatId,
    to: VatId,
    frame: Frame,
) -> Result<(), Memory>
    ensures { OnOk result (More history.old history.new (told_so wire (line.Carry number from to frame.note ∷ line.Frame frame.bytes ∷ []))) }
{
    let Frame { bytes, note, .. } = frame;
    let note = Boxed::new(alloc, note)?;
    history.push(alloc, Event::Carry(number, from, to, note))?;
    if wire {
        history.push(alloc, Event::Frame(bytes))?;
    }
    Ok(())
}

impl World {
    /// The first note on the way from one vat to another arrives.
    pub(crate) fn carry(
        &mut self,
        alloc: Global,
        from: VatId,
        to: VatId,
        number: u64,
    ) -> Result<(), VatStop>
        requires ready { AreReady self.old.residents.items }
        ensures step { (S : TheirScript) (w : Vats) → IsWorld S w self.old → StepsSteadily S (their.Carry from to) number w
            → CourseIs S result (step_number S number) (step S (their.Carry from to) number w) self.new }
        ensures ready { OnOk result (AreReady self.new.residents.items) }
        ensures wire { self.new.wire ≡ self.old.wire }
    {
        let Some(frame) = self.ways.carry(from, to) else {
            self.history.push(alloc, Event::Idle(number))?;
            return Ok(());
        };
        self.deliver(alloc, from, to, number, frame)
    }

    /// A vat hears a frame of another, which was taken from its way.
    fn hear(
        &mut self,
        alloc: Global,
        from: VatId,
        to: VatId,
        frame: &Frame,
    ) -> Result<Heard, VatStop>
        requires ready { AreReady self.old.residents.items }
        ensures step { (S : TheirScript) (w : Vats) (rows : List (List Lane)) (k : ℕ) → IsWorld S w (with_ways rows self.old) → next_at from to rows ≡ Some frame.now → self.old.ways ≡ changed behind from to rows
            → StepsSteadily S (their.Carry from to) k w → HearsFrame S w from to k frame.now self.new result }
        ensures ready { OnOk result (AreReady self.new.residents.items) }
        ensures wire { self.new.wire ≡ self.old.wire }
    {
        let count = self.residents.len();
        let Some(receiver) = self.residents.get_mut(to.0 as usize) else {
            return Err(VatStop::Memory);
        };
        let before = exports_of(alloc, &receiver.member, count)?;
        let first = receiver.member.imports(from);
        let Some(arrival) = receiver.hear(self.fuel, &mut self.words, from, frame.bytes.as_slice())?
        else {
            return Err(VatStop::Astray);
        };
        let Arrival { sendings, news } = arrival;
        let told = told_for(
            alloc,
            self.residents.as_slice(),
            from,
            to,
            first,
            &news,
            frame,
        )?;
        Ok(Heard {
            before,
            told,
            sendings,
        })
    }

    /// A frame of one vat, which was taken from its way to another, arrives there.
    fn deliver(
        &mut self,
        alloc: Global,
        from: VatId,
        to: VatId,
        number: u64,
        frame: Frame,
    ) -> Result<(), VatStop>
        requires ready { AreReady self.old.residents.items }
        ensures step { (S : TheirScript) (w : Vats) (rows : List (List Lane)) → IsWorld S w (with_ways rows self.old) → next_at from to rows ≡ Some frame → self.old.ways ≡ changed behind from to rows
            → StepsSteadily S (their.Carry from to) number w → CourseIs S result (step_number S number) (step S (their.Carry from to) number w) self.new }
        ensures ready { OnOk result (AreReady self.new.residents.items) }
        ensures wire { self.new.wire ≡ self.old.wire }
    {
        let heard = self.hear(alloc, from, to, &frame)?;
        let Heard {
            before,
            told,
            sendings,
        } = heard;
        let message = frame.message;
        tell_note(&mut self.history, alloc, self.wire, number, from, to, frame)?;
        self.finish(alloc, to, before.as_slice(), message, told, sendings)?;
        Ok(())
    }
}
