//! What the lines so far tell, as a set.

ghost use Rattle.std.specs.Prelude.{◌≡◌, ◌<◌, [], ◌∷◌, List, Some, length, map, slice_get, OnOk};
ghost use Rattle.def_event.specs.Uses.{AName, Line, Captured as Captures, gains, given, lists_of, things_of};
ghost use Rattle.def_event.specs.declared.event.Event.TheVariants.{Audition as AuditionMade};
ghost use Rattle.ev_known.specs.Telling.{StandsFor, is_told, key, told, told_begun, told_called, told_captures, told_line, told_made, told_object, told_opened, told_taken, told_value, told_values, with_fact};

use def_event::{Addressed, Called, Event, Shown};
use ev_base::{Memory, Name};
use ev_links::{Label, list_label, name_label};
use indexmap::IndexSet;
use std::alloc::Global;
use std::marker::Model;

/// An activation, by the place of its lines and its number there.
#[derive(Clone, Copy, PartialEq, Eq, Hash)]
pub struct Activation {
    pub at: u64,
    pub number: u64,
}

/// What a line tells by itself of who knows what.
#[derive(Clone, Copy, PartialEq, Eq, Hash)]
pub enum Fact {
    /// The activation has begun.
    Begun(Activation),
    /// It began as the opening of its vat.
    Opened(Activation),
    /// It made the thing or was given it.
    Given(Activation, Label),
    /// The object was made.
    Made(Label),
    /// The object captured the thing when it was made.
    Captured(Label, Label),
    /// The object is an audition.
    Audition(Label),
}

/// Facts that were told. Contracts see them as a list, in which each stands once.
pub struct Facts {
    told: IndexSet<Fact>,
}

impl Drop for Facts {
    fn drop(self) {
        let Self { told: _told } = self;
    }
}

impl Model for Facts {
    ghost use Rattle.std.specs.Prelude.{List};
    ghost use Rattle.ev_known.specs.declared.facts.Fact.{Fact};

    ghost Value = { List Fact };

    ghost view = { λ f. f.told.keys };
}

/// The activation of a number at a place.
fn of(at: u64, number: u64) -> Activation
    ensures { result ≡ record { at = at; number = number } }
{
    Activation { at, number }
}

impl Facts {
    /// Nothing was told. It takes no memory.
    pub fn new(alloc: Global) -> Facts
        ensures empty { result ≡ [] }
        ensures stands { StandsFor result [] }
    {
        Facts {
            told: IndexSet::new(alloc),
        }
    }

    /// Whether a fact was told.
    #[tactic(auto, unfolding(crate::specs::Telling::is_told))]
    pub fn has(&self, fact: Fact) -> bool
        ensures { result ≡ is_told self.now fact }
    {
        self.told.contains(&fact)
    }

    /// How many were told.
    pub fn len(&self) -> usize
        ensures { result ≡ length self.now }
    {
        self.told.len()
    }

    /// The one of that number, by the order in which they were told.
    pub fn at(&self, index: usize) -> Fact
        requires { index < length self.now }
        ensures { slice_get self.now index ≡ Some result }
    {
        self.told.as_slice()[index]
    }

    /// A fact is told.
    #[tactic(auto, unfolding(crate::specs::Telling::with_fact))]
    fn tell(&mut self, fact: Fact) -> Result<(), Memory>
        ensures { OnOk result (self.new ≡ with_fact self.old fact) }
    {
        self.told.insert_full(fact)?;
        Ok(())
    }

    /// An activation is given what a value is.
    #[tactic(auto, unfolding(def_event::specs::Uses::things_of, crate::specs::Telling::key))]
    fn give(&mut self, activation: Activation, value: &Shown) -> Result<(), Memory>
        ensures { OnOk result (self.new ≡ told self.old (map key (given activation.at activation.number (things_of value.now)))) }
    {
        match value {
            Shown::Name(name) => self.tell(Fact::Given(activation, name_label(name))),
            Shown::List(vat, number) => {
                self.tell(Fact::Given(activation, list_label(vat, *number)))
            }
            _ => Ok(()),
        }
    }

    /// An activation is given the list that a value is.
    #[tactic(auto, unfolding(def_event::specs::Uses::lists_of, crate::specs::Telling::key))]
    fn give_list(&mut self, activation: Activation, value: &Shown) -> Result<(), Memory>
        ensures { OnOk result (self.new ≡ told self.old (map key (given activation.at activation.number (lists_of value.now)))) }
    {
        match value {
            Shown::List(vat, number) => {
                self.tell(Fact::Given(activation, list_label(vat, *number)))
            }
            _ => Ok(()),
        }
    }

    /// An activation is given what values are.
    fn give_all(&mut self, activation: Activation, values: &[Shown]) -> Result<(), Memory>
        ensures { OnOk result (self.new ≡ told_values activation self.old values.now) }
    {
        for value in values {
            self.give(activation, value)?;
        }
        Ok(())
    }

    /// An object captures what a value is.
    #[tactic(auto, unfolding(def_event::specs::Uses::things_of, crate::specs::Telling::key))]
    fn capture(&mut self, object: &Name, value: &Shown) -> Result<(), Memory>
        ensures { OnOk result (self.new ≡ told self.old (map key (map (λ t. Captures object.now t) (things_of value.now)))) }
    {
        match value {
            Shown::Name(name) => self.tell(Fact::Captured(name_label(object), name_label(name))),
            Shown::List(vat, number) => {
                self.tell(Fact::Captured(name_label(object), list_label(vat, *number)))
            }
            _ => Ok(()),
        }
    }

    /// An object captures what values are.
    fn capture_all(&mut self, object: &Name, values: &[Shown]) -> Result<(), Memory>
        ensures { OnOk result (self.new ≡ told_captures object.now self.old values.now) }
    {
        for value in values {
            self.capture(object, value)?;
        }
        Ok(())
    }

    /// An activation makes an audition.
    #[tactic(auto, unfolding(def_event::specs::Uses::gains, crate::specs::Telling::key))]
    fn tell_audition(&mut self, activation: Activation, value: &Shown) -> Result<(), Memory>
        ensures { OnOk result (self.new ≡ told self.old (map key (gains activation.at (AuditionMade activation.number value.now)))) }
    {
        match value {
            Shown::Name(name) => {
                self.tell(Fact::Audition(name_label(name)))?;
                self.tell(Fact::Given(activation, name_label(name)))
            }
            _ => self.give(activation, value),
        }
    }

    /// What the activation of a line comes to have by it.
    #[tactic(auto, unfolding(def_event::specs::Uses::gains, crate::specs::Telling::key))]
    fn tell_gains(&mut self, at: u64, event: &Event) -> Result<(), Memory>
        ensures { OnOk result (self.new ≡ told self.old (map key (gains at event.now))) }
    {
        match event {
            Event::Back(number, value) => self.give(of(at, *number), value),
            Event::Got(number, value) => self.give(of(at, *number), value),
            Event::Read(number, _, value) => self.give(of(at, *number), value),
            Event::List(number, list, _) => {
                self.tell(Fact::Given(of(at, *number), list_label(&list.0, list.1)))
            }
            Event::Ejector(number, value) => self.give(of(at, *number), value),
            Event::Audition(number, value) => self.tell_audition(of(at, *number), value),
            Event::Promise(number, name, value) => {
                self.tell(Fact::Given(of(at, *number), name_label(name)))?;
                self.give(of(at, *number), value)
            }
            Event::Made(made) => {
                let made = made.get();
                self.give(of(at, made.activation), &made.object)
            }
            Event::Send(sent) => {
                let sent = sent.get();
                self.tell(Fact::Given(of(at, sent.activation), name_label(&sent.answer)))
            }
            Event::When(when) => {
                let when = when.get();
                self.tell(Fact::Given(of(at, when.activation), name_label(&when.answer)))
            }
            _ => Ok(()),
        }
    }

    /// An activation opens its vat, unless it has begun.
    fn open(&mut self, activation: Activation) -> Result<(), Memory>
        ensures { OnOk result (self.new ≡ told_opened activation self.old) }
    {
        if self.has(Fact::Begun(activation)) {
            return Ok(());
        }
        self.tell(Fact::Begun(activation))?;
        self.tell(Fact::Opened(activation))
    }

    /// An activation takes a message, unless it has begun.
    fn take(&mut self, activation: Activation, taken: &Addressed) -> Result<(), Memory>
        ensures { OnOk result (self.new ≡ told_taken activation taken.now self.old) }
    {
        if self.has(Fact::Begun(activation)) {
            return Ok(());
        }
        self.tell(Fact::Begun(activation))?;
        self.give_list(activation, &taken.target)?;
        self.give_all(activation, taken.args.as_slice())
    }

    /// A call may begin an activation.
    fn call(&mut self, at: u64, called: &Called) -> Result<(), Memory>
        ensures { OnOk result (self.new ≡ told_called at called.now called.now.begun self.old) }
    {
        let Some(number) = called.begun else {
            return Ok(());
        };
        let activation = of(at, number);
        if self.has(Fact::Begun(activation)) {
            return Ok(());
        }
        self.tell(Fact::Begun(activation))?;
        self.give_all(activation, called.args.as_slice())
    }

    /// What a line tells where it begins an activation.
    #[tactic(auto, unfolding(crate::specs::Telling::told_begun))]
    fn tell_begun(&mut self, at: u64, event: &Event) -> Result<(), Memory>
        ensures { OnOk result (self.new ≡ told_begun at event.now self.old) }
    {
        match event {
            Event::Open(_) => self.open(of(at, 0)),
            Event::Take(taken) => {
                let taken = taken.get();
                self.take(of(at, taken.activation), taken)
            }
            Event::Call(called) => self.call(at, called.get()),
            _ => Ok(()),
        }
    }

    /// An object is made, unless it was made.
    fn make(&mut self, object: &Name, caps: &[Shown]) -> Result<(), Memory>
        ensures { OnOk result (self.new ≡ told_object object.now caps.now self.old) }
    {
        if self.has(Fact::Made(name_label(object))) {
            return Ok(());
        }
        self.tell(Fact::Made(name_label(object)))?;
        self.capture_all(object, caps)
    }

    /// A value is made, which may be an object.
    fn make_value(&mut self, value: &Shown, caps: &[Shown]) -> Result<(), Memory>
        ensures { OnOk result (self.new ≡ told_value value.now caps.now self.old) }
    {
        match value {
            Shown::Name(object) => self.make(object, caps),
            _ => Ok(()),
        }
    }

    /// What a line tells where it makes an object.
    #[tactic(auto, unfolding(crate::specs::Telling::told_made))]
    fn tell_made(&mut self, event: &Event) -> Result<(), Memory>
        ensures { OnOk result (self.new ≡ told_made event.now self.old) }
    {
        match event {
            Event::Made(made) => {
                let made = made.get();
                self.make_value(&made.object, made.caps.as_slice())
            }
            _ => Ok(()),
        }
    }

    /// What a line at a place tells. A set that stands for the lines before it stands for these and the line.
    #[tactic(auto, using(crate::proofs::Told::line_stands))]
    pub fn tell_line(&mut self, at: u64, event: &Event) -> Result<(), Memory>
        ensures told { OnOk result (self.new ≡ told_line at event.now self.old) }
        ensures stands { (past : List Line) → StandsFor self.old past → OnOk result (StandsFor self.new (record { at = at; event = event.now } ∷ past)) }
    {
        self.tell_made(event)?;
        self.tell_begun(at, event)?;
        self.tell_gains(at, event)
    }
}
