//! The last line about each thing.

ghost use Rattle.std.specs.Prelude.{◌≡◌, ◌∷◌, [], OnOk, is_some, option_map};
ghost use Rattle.def_why.specs.Marks.{all_handed, called, handed, made, marks, noted};
ghost use Rattle.ev_see_refusals.specs.Table.{Puts, last_in, place_in};

use def_event::{Called, Event, Shown, ShownNote};
use def_why::Mark;
use ev_base::{Memory, Name};
use indexmap::IndexMap;
use std::alloc::Global;
use std::marker::Model;

/// The place of the last line about each thing, counted from 0.
pub struct Marks {
    places: IndexMap<Mark, usize>,
}

impl Drop for Marks {
    fn drop(self) {
        let Self { places: _places } = self;
    }
}

impl Model for Marks {
    ghost use Rattle.std.specs.Prelude.{List, ℕ};
    ghost use Rattle.def_why.specs.declared.mark.Mark.{Mark};

    ghost Value = { List (Mark × ℕ) };

    ghost view = { λ m. m.places.entries };
}

impl Marks {
    /// No lines. It takes no memory.
    pub fn new(alloc: Global) -> Marks
        ensures { result ≡ [] }
    {
        Marks {
            places: IndexMap::new(alloc),
        }
    }

    /// The place of the last line about something.
    #[tactic(auto, unfolding(crate::specs::Table::place_in))]
    fn find(&self, mark: Mark) -> Option<usize>
        ensures { result ≡ place_in self.now mark }
    {
        self.places.get(&mark).copied()
    }

    /// The last of these lines about something.
    pub fn last<'a>(&self, events: &'a [Event], mark: Mark) -> Option<&'a Event>
        ensures { option_map (λ e. e.now) result ≡ last_in self.now events.now mark }
    {
        match self.find(mark) {
            Some(place) => events.get(place),
            None => None,
        }
    }

    /// Whether one of these lines is about something.
    #[tactic(auto, using(crate::proofs::TableLemmas::some_mapped))]
    pub fn has(&self, events: &[Event], mark: Mark) -> bool
        ensures { result ≡ is_some (last_in self.now events.now mark) }
    {
        self.last(events, mark).is_some()
    }

    /// A line at this place is about something.
    #[tactic(auto, using(crate::proofs::TableLemmas::puts_one), unfolding(crate::specs::Table::place_in))]
    fn put(&mut self, mark: Mark, index: usize) -> Result<(), Memory>
        ensures { OnOk result (Puts (mark ∷ []) index self.old self.new) }
    {
        // What a mark is made of has to be named where one is put.
        let _name: Option<Name> = None;
        self.places.insert(mark, index)?;
        Ok(())
    }

    /// The same of two things.
    #[tactic(auto, using(crate::proofs::TableLemmas::puts_both))]
    fn put_both(&mut self, first: Mark, second: Mark, index: usize) -> Result<(), Memory>
        ensures { OnOk result (Puts (first ∷ second ∷ []) index self.old self.new) }
    {
        self.put(first, index)?;
        self.put(second, index)
    }

    /// What a value makes.
    #[tactic(auto, using(crate::proofs::TableLemmas::puts_none), unfolding(def_why::specs::Marks::made))]
    fn put_made(&mut self, value: &Shown, index: usize) -> Result<(), Memory>
        ensures { OnOk result (Puts (made value.now) index self.old self.new) }
    {
        match value {
            Shown::Name(name) => self.put(Mark::Made(*name), index),
            _ => Ok(()),
        }
    }

    /// A promise and its resolver.
    #[tactic(auto, using(crate::proofs::TableLemmas::puts_both))]
    fn put_promise(&mut self, promise: &Name, resolver: &Shown, index: usize) -> Result<(), Memory>
        ensures { OnOk result (Puts (Mark.Made promise.now ∷ made resolver.now) index self.old self.new) }
    {
        self.put(Mark::Made(*promise), index)?;
        self.put_made(resolver, index)
    }

    /// What a value hands on at a place.
    #[tactic(auto, using(crate::proofs::TableLemmas::puts_none), unfolding(def_why::specs::Marks::handed))]
    fn put_handed(&mut self, at: u64, value: &Shown, index: usize) -> Result<(), Memory>
        ensures { OnOk result (Puts (handed at value.now) index self.old self.new) }
    {
        match value {
            Shown::Name(name) => self.put(Mark::Handed(at, *name), index),
            Shown::List(vat, number) => self.put(Mark::HandedList(at, *vat, *number), index),
            _ => Ok(()),
        }
    }

    /// What values hand on at a place.
    fn put_all_handed(&mut self, at: u64, values: &[Shown], index: usize) -> Result<(), Memory>
        ensures { OnOk result (Puts (all_handed at values.now) index self.old self.new) }
    {
        for value in values {
            self.put_handed(at, value, index)?;
        }
        Ok(())
    }

    /// What a call hands on at a place.
    #[tactic(auto, using(crate::proofs::TableLemmas::puts_none))]
    fn put_called(&mut self, at: u64, call: &Called, index: usize) -> Result<(), Memory>
        ensures { OnOk result (Puts (called at call.now call.now.begun) index self.old self.new) }
    {
        match call.begun {
            Some(_) => Ok(()),
            None => self.put_all_handed(at, call.args.as_slice(), index),
        }
    }

    /// A note that comes to a place.
    #[tactic(auto, using(crate::proofs::TableLemmas::puts_none), unfolding(def_why::specs::Marks::noted))]
    fn put_noted(&mut self, at: u64, note: &ShownNote, index: usize) -> Result<(), Memory>
        ensures { OnOk result (Puts (noted at note.now) index self.old self.new) }
    {
        match note {
            ShownNote::Deliver {
                message,
                target: _,
                verb: _,
                args: _,
            } => self.put(Mark::Moved(*message), index),
            ShownNote::DeliverOnly {
                message,
                target: _,
                verb: _,
                args: _,
            } => self.put(Mark::Moved(*message), index),
            ShownNote::Settled(name, _) => self.put(Mark::Told(at, *name), index),
            _ => Ok(()),
        }
    }

    /// A step that carries a note to a place.
    #[tactic(auto, using(crate::proofs::TableLemmas::puts_both))]
    fn put_carried(&mut self, at: u64, note: &ShownNote, index: usize) -> Result<(), Memory>
        ensures { OnOk result (Puts (Mark.Step ∷ noted at note.now) index self.old self.new) }
    {
        self.put(Mark::Step, index)?;
        self.put_noted(at, note, index)
    }

    /// The line at this place is told.
    #[tactic(auto, using(crate::proofs::TableLemmas::puts_none), unfolding(def_why::specs::Marks::marks))]
    pub fn tell_line(&mut self, at: u64, event: &Event, index: usize) -> Result<(), Memory>
        ensures { OnOk result (Puts (marks at event.now) index self.old self.new) }
    {
        match event {
            Event::Open(_)
            | Event::Turn(_, _)
            | Event::Idle(_)
            | Event::Cut(_, _, _)
            | Event::Notice(_, _, _)
            | Event::Raw(_) => self.put(Mark::Step, index),
            Event::Carry(_, _, _, note) => self.put_carried(at, note.get(), index),
            Event::Take(taken) => self.put(Mark::Taken(taken.get().message), index),
            Event::Send(sent) => self.put(Mark::Moved(sent.get().message), index),
            Event::SendOnly(sent) => self.put(Mark::Moved(sent.get().message), index),
            Event::When(when) => self.put(Mark::Moved(when.get().message), index),
            Event::Settle(name, _) => self.put(Mark::Settled(at, *name), index),
            Event::Wait(name, _) => self.put(Mark::Led(at, *name), index),
            Event::View(name, _) => self.put(Mark::Led(at, *name), index),
            Event::Made(object) => self.put_made(&object.get().object, index),
            Event::Ejector(_, object) => self.put_made(object, index),
            Event::Audition(_, object) => self.put_made(object, index),
            Event::Promise(_, promise, resolver) => self.put_promise(promise, resolver, index),
            Event::List(_, list, _) => self.put(Mark::List(list.0, list.1), index),
            Event::Arrived(list, _) => self.put(Mark::List(list.0, list.1), index),
            Event::Slot(_, slot, _) => self.put(Mark::Slot(slot.0, slot.1), index),
            Event::Wrote(_, slot, _) => self.put(Mark::Slot(slot.0, slot.1), index),
            Event::Call(called) => self.put_called(at, called.get(), index),
            _ => Ok(()),
        }
    }
}
