//! The tables of one connection.

ghost use Rattle.std.specs.Prelude.{◌≡◌, ◌≢◌, true, false, length, option_map, slice_get, IfOk, IfErr, OnErr};
ghost use Rattle.def_op.specs.Views.{described};
ghost use Rattle.ev_tables.specs.Table.{fresh, exported, export_number, export_position, imported, asked_for, answered, entry, description, name_of, IsExportFault, IsNumberFault};

use crate::fault::TableFault;
use crate::names::Names;
use crate::numeral::Number;
use crate::places::Places;
use def_op::Desc;
use ev_base::{Memory, PromId, Seq, Value, VatId};
use std::alloc::Global;
use std::marker::Model;

/// The numbers under which a vat and its peer know each other's things. Each list of numbers begins at 0 and has no
/// gap, and no number is ever freed.
pub struct Connection {
    peer: VatId,
    is_closed: bool,
    exports: Places,
    imports: Seq<Value>,
    asked: Seq<PromId>,
    answers: Seq<PromId>,
    names: Names,
}

impl Drop for Connection {
    fn drop(self) {
        let Self {
            peer: _,
            is_closed: _,
            exports: _exports,
            imports: _imports,
            asked: _asked,
            answers: _answers,
            names: _names,
        } = self;
    }
}

impl Model for Connection {
    ghost use Rattle.ev_tables.specs.Table.{Table};

    ghost Value = { Table };

    ghost view = { λ c. record { peer = c.peer; is_closed = c.is_closed; exports = c.exports; imports = c.imports; asked = c.asked; answers = c.answers; names = c.names } };
}

fn export_number(thing: &Value, position: u64) -> Number
    ensures { result ≡ export_number thing.now position }
{
    match thing {
        Value::Prom(_) => Number::MyPromise(position),
        _ => Number::MyExport(position),
    }
}

impl Connection {
    /// A connection to a peer on which nothing has passed. It takes no memory.
    pub fn new(alloc: Global, peer: VatId) -> Connection
        ensures { result ≡ fresh peer }
    {
        Connection {
            peer,
            is_closed: false,
            exports: Places::new(alloc),
            imports: Seq::new(alloc),
            asked: Seq::new(alloc),
            answers: Seq::new(alloc),
            names: Names::new(alloc),
        }
    }

    /// The position of a thing of this vat: the one that it has, or the next. A refusal changes nothing.
    pub fn export(&mut self, thing: Value) -> Result<u64, TableFault>
        ensures position { IfOk result (λ n. n ≡ export_position thing self.old) }
        ensures ok { IfOk result (λ _. self.new ≡ exported thing self.old) }
        ensures open { IfOk result (λ _. self.old.is_closed ≡ false) }
        ensures fault { IfErr result (λ e. IsExportFault self.old e) }
        ensures err { OnErr result (self.new ≡ self.old) }
    {
        if self.is_closed {
            return Err(TableFault::Closed);
        }
        if let Some(position) = self.exports.find(&thing) {
            return Ok(position as u64);
        }
        let position = self.exports.len() as u64;
        let counts = self.names.note(&thing, export_number(&thing, position))?;
        match self.exports.push(&thing) {
            Ok(()) => Ok(position),
            Err(Memory) => {
                self.names.take_back(counts);
                Err(TableFault::Memory)
            }
        }
    }

    /// Takes what the peer exported at this position, as this vat knows it. A refusal changes nothing.
    pub fn import(&mut self, position: u64, local: Value) -> Result<(), TableFault>
        ensures ok { IfOk result (λ _. (self.new ≡ imported local self.old) × (position ≡ length self.old.imports) × (self.old.is_closed ≡ false)) }
        ensures fault { IfErr result (λ e. IsNumberFault position (length self.old.imports) self.old e) }
        ensures err { OnErr result (self.new ≡ self.old) }
    {
        self.admits(position, self.imports.len())?;
        let counts = self.names.note(&local, Number::YourExport(position))?;
        if let Err(Memory) = self.imports.push(local) {
            self.names.take_back(counts);
            return Err(TableFault::Memory);
        }
        Ok(())
    }

    /// Asks the next question, whose answer is this promise. The answer is the question's number. A refusal changes
    /// nothing.
    pub fn ask(&mut self, promise: PromId) -> Result<u64, TableFault>
        ensures number { IfOk result (λ n. n ≡ length self.old.asked) }
        ensures ok { IfOk result (λ _. (self.new ≡ asked_for promise self.old) × (self.old.is_closed ≡ false)) }
        ensures fault { IfErr result (λ e. IsExportFault self.old e) }
        ensures err { OnErr result (self.new ≡ self.old) }
    {
        if self.is_closed {
            return Err(TableFault::Closed);
        }
        let question = self.asked.len() as u64;
        let counts = self
            .names
            .note(&Value::Prom(promise), Number::YourAnswer(question))?;
        if let Err(Memory) = self.asked.push(promise) {
            self.names.take_back(counts);
            return Err(TableFault::Memory);
        }
        Ok(question)
    }

    /// Takes the peer's question, whose answer is this promise. A refusal changes nothing.
    pub fn answer(&mut self, question: u64, promise: PromId) -> Result<(), TableFault>
        ensures ok { IfOk result (λ _. (self.new ≡ answered promise self.old) × (question ≡ length self.old.answers) × (self.old.is_closed ≡ false)) }
        ensures fault { IfErr result (λ e. IsNumberFault question (length self.old.answers) self.old e) }
        ensures err { OnErr result (self.new ≡ self.old) }
    {
        self.admits(question, self.answers.len())?;
        let counts = self
            .names
            .note(&Value::Prom(promise), Number::MyAnswer(question))?;
        if let Err(Memory) = self.answers.push(promise) {
            self.names.take_back(counts);
            return Err(TableFault::Memory);
        }
        Ok(())
    }

    /// Whether a number that the peer gave may be taken, where this one is next.
    fn admits(&self, given: u64, next: usize) -> Result<(), TableFault>
        ensures ok { IfOk result (λ _. (given ≡ next) × (self.now.is_closed ≡ false)) }
        ensures fault { IfErr result (λ e. IsNumberFault given next self.now e) }
    {
        if self.is_closed {
            return Err(TableFault::Closed);
        }
        if given != next as u64 {
            return Err(TableFault::WrongNumber(next as u64));
        }
        Ok(())
    }

    /// What a description from the peer stands for. There is none exactly where its number is not there.
    /// It takes no memory.
    pub fn entry(&self, desc: &Desc) -> Option<Value>
        ensures { result ≡ entry (described desc.now) self.now }
    {
        match desc {
            Desc::YourExport(position) => self.exports.get(*position as usize),
            Desc::YourAnswer(question) => promise_at(&self.answers, *question),
            Desc::MyExport(position) => value_at(&self.imports, *position),
            Desc::MyPromise(position) => value_at(&self.imports, *position),
            Desc::MyAnswer(question) => promise_at(&self.asked, *question),
            Desc::Plain(_) | Desc::ListOf(_) | Desc::Broken(_) | Desc::Third { .. } => None,
        }
    }

    /// How this vat describes a value to the peer: by the number that came first. There is no description exactly
    /// where the value has no number between the two. It takes no memory.
    pub fn describe(&self, local: Value) -> Option<Desc>
        ensures { option_map described result ≡ option_map description (name_of local self.now.names) }
    {
        match self.names.find(&local) {
            Some(number) => Some(number.desc()),
            None => None,
        }
    }

    /// The position that this vat exports at next.
    pub fn next_export(&self) -> u64
        ensures { result ≡ length self.now.exports }
    {
        self.exports.len() as u64
    }

    /// The position that the peer exports at next.
    pub fn next_import(&self) -> u64
        ensures { result ≡ length self.now.imports }
    {
        self.imports.len() as u64
    }

    /// The number of the question that the peer asks next.
    pub fn next_answer(&self) -> u64
        ensures { result ≡ length self.now.answers }
    {
        self.answers.len() as u64
    }

    /// The number of the question that this vat asks next.
    pub fn next_question(&self) -> u64
        ensures { result ≡ length self.now.asked }
    {
        self.asked.len() as u64
    }

    /// The vat on the other side.
    pub fn peer(&self) -> VatId
        ensures { result ≡ self.now.peer }
    {
        self.peer
    }

    /// Closes the connection: no number is given or taken from then on, and what stands stays.
    pub fn close(&mut self)
        ensures { self.new ≡ record self.old { is_closed = true } }
    {
        self.is_closed = true;
    }

    /// Whether the connection is closed.
    pub fn is_closed(&self) -> bool
        ensures { result ≡ self.now.is_closed }
    {
        self.is_closed
    }
}

/// The promise of a question.
fn promise_at(promises: &Seq<PromId>, question: u64) -> Option<Value>
    ensures { result ≡ option_map Value.Prom (slice_get promises.now question) }
{
    match promises.as_slice().get(question as usize) {
        Some(promise) => Some(Value::Prom(*promise)),
        None => None,
    }
}

/// The value at a position.
fn value_at(values: &Seq<Value>, position: u64) -> Option<Value>
    ensures { result ≡ slice_get values.now position }
{
    match values.as_slice().get(position as usize) {
        Some(value) => Some(*value),
        None => None,
    }
}
