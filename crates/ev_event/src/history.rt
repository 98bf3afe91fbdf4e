//! Histories.

ghost use Rattle.std.specs.Prelude.{◌≡◌, [], ◌∷◌, ◌++◌, IfOk, OnOk, OnErr};
ghost use Rattle.def_event.specs.Lines.{render};

use crate::line::render_all;
use def_event::event::Event;
use ev_base::{Memory, Seq, Str};
use std::alloc::Global;
use std::marker::Model;

/// The events of a run, in order.
#[derive(Drop)]
pub struct History {
    events: Vec<Event>,
}

impl Model for History {
    ghost use Rattle.std.specs.Prelude.{List};
    ghost use Rattle.std.specs.Coded.{coded_list};
    ghost use Rattle.def_event.specs.declared.event.Event.{Event};
    ghost use Rattle.def_event.specs.contracts.event.Event as event;

    ghost Value = { List Event };

    ghost coded = { coded_list event.the_row.coded };

    ghost view = { λ h. h.events.items };
}

impl History {
    /// The history in which nothing happened yet. It takes no memory.
    pub fn new(alloc: Global) -> History
        ensures { result ≡ [] }
    {
        History {
            events: Vec::new(alloc),
        }
    }

    /// Adds an event at the end, or refuses and leaves the history as it was.
    pub fn push(&mut self, event: Event) -> Result<(), Memory>
        ensures ok { OnOk result (self.new ≡ self.old ++ event ∷ []) }
        ensures err { OnErr result (self.new ≡ self.old) }
    {
        self.events.push(event)?;
        Ok(())
    }

    /// The events, lent in order.
    pub fn events(&self) -> &[Event]
        ensures { result.now ≡ self.now }
    {
        self.events.as_slice()
    }

    /// Forgets all events. The room that they took is kept for those to come.
    pub fn clear(&mut self)
        ensures { self.new ≡ [] }
    {
        self.events.clear();
    }

    /// The lines of all events, each with its line feed.
    pub fn render(&self, alloc: Global, names: &Seq<Str>) -> Result<Str, Memory>
        ensures { IfOk result (λ text. text ≡ render names.now self.now) }
    {
        render_all(alloc, self.events.as_slice(), names)
    }
}
