//! The number of each value that came first.

ghost use Rattle.std.specs.Prelude.{◌≡◌, ◌-◌, [], length, take, is_some, not, if◌then◌else◌, IfOk, OnErr};
ghost use Rattle.ev_tables.specs.Table.{name_of, named};

use crate::numeral::Number;
use crate::thing::Thing;
use ev_base::{Memory, Value};
use indexmap::IndexMap;
use std::alloc::Global;
use std::marker::Model;

/// Each value that has a number, in the order of coming, with the number that came first.
pub(crate) struct Names {
    numbers: IndexMap<Thing, Number>,
}

impl Drop for Names {
    fn drop(self) {
        let Self { numbers: _numbers } = self;
    }
}

impl Model for Names {
    ghost use Rattle.std.specs.Prelude.{map};
    ghost use Rattle.ev_tables.specs.Table.{NameList};

    ghost Value = { NameList };

    ghost view = { λ n. map (λ e. (e.0.0, e.1)) n.numbers.entries };
}

impl Names {
    pub fn new(alloc: Global) -> Names
        ensures { result ≡ [] }
    {
        Names {
            numbers: IndexMap::new(alloc),
        }
    }

    /// The number of a value that came first.
    pub fn find(&self, value: &Value) -> Option<Number>
        ensures { result ≡ name_of value.now self.now }
    {
        self.numbers.get(&Thing(*value)).copied()
    }

    /// Gives a value a number, which counts where it has none. The answer tells whether it counts. A refusal changes
    /// nothing.
    pub fn note(&mut self, value: &Value, number: Number) -> Result<bool, Memory>
        ensures added { IfOk result (λ added. added ≡ not (is_some (name_of value.now self.old))) }
        ensures ok { IfOk result (λ _. self.new ≡ named value.now number self.old) }
        ensures err { OnErr result (self.new ≡ self.old) }
    {
        let thing = Thing(*value);
        if self.numbers.contains_key(&thing) {
            return Ok(false);
        }
        self.numbers.insert(thing, number)?;
        Ok(true)
    }

    /// Takes back what `note` did last, where it counted.
    pub fn take_back(&mut self, counted: bool)
        ensures { self.new ≡ (if counted then take (length self.old - 1) self.old else self.old) }
    {
        if counted {
            let _last = self.numbers.pop();
        }
    }
}
