//! What happened, in small lines. The values of all lines stand one after another, each verb stands once, and what is rare stands whole.

ghost use Rattle.std.specs.Prelude.{◌≡◌, ◌++◌, ◌∷◌, [], List, length, suc, None, Some, IfOk, OnOk, OnErr};
ghost use Rattle.ev_base.specs.declared.values.Value.{Value as Held};
ghost use Rattle.ev_heap.specs.declared.happened.Happened.{Happened as Event};
ghost use Rattle.ev_heap.specs.declared.happened.Happened.TheVariants as event;
ghost use Rattle.ev_heap.specs.Told.{AllFit, Fits, read, told, width, widths};

use crate::Happened;
use crate::cursor::Cursor;
use crate::packed::{Values, short};
use crate::verbs::Verbs;
use ev_base::{ActId, ListId, Memory, Seq, SlotId, Value, Word};
use std::alloc::Global;
use std::marker::Model;
use std::mem::size_of;

/// What happened, but for its values, in numbers of four bytes. An activation comes first, but for the number of values.
#[derive(Clone, Copy)]
pub enum Line {
    /// A call that begins no activation: so many arguments, the activation and the place of the verb. Its values are the target and the arguments.
    Call(u32, u32, u32),
    /// A call that begins one, which comes last.
    Begins(u32, u32, u32, u32),
    Back(u32),
    Thrown(u32),
    Gone(u32),
    Got(u32),
    Slot(u32, u32),
    Read(u32, u32),
    Wrote(u32, u32),
    /// A list of so many members.
    List(u32, u32, u32),
    Ejector(u32),
    /// Anything else, which stands at that place.
    Rare(u32),
}

const _: () = prove!(size_of::<Line>() == 20);

impl Line {
    /// How many values are the line's.
    #[inline(always)]
    pub fn width(&self) -> u64
        ensures { result ≡ width self.now }
    {
        match self {
            Line::Call(count, _, _) | Line::Begins(count, _, _, _) => u64::from(*count) + 1,
            Line::List(count, _, _) => u64::from(*count),
            Line::Gone(_) | Line::Rare(_) => 0,
            _ => 1,
        }
    }
}

/// What happened, in order.
pub struct Lines {
    alloc: Global,
    lines: Vec<Line>,
    values: Values,
    verbs: Verbs,
    rare: Vec<Happened>,
}

impl Drop for Lines {
    fn drop(self) {
        let Self {
            alloc: _,
            lines: _lines,
            values: _values,
            verbs: _verbs,
            rare: _rare,
        } = self;
    }
}

impl Model for Lines {
    ghost use Rattle.std.specs.Prelude.{List};
    ghost use Rattle.ev_heap.specs.declared.happened.Happened.{Happened as Event};
    ghost use Rattle.ev_heap.specs.Told.{read, IsLog};

    ghost Value = { List Event };

    ghost view = { λ l. read l.verbs l.rare.items l.lines.items l.values };

    ghost invariant = { λ l. IsLog l.verbs l.rare.items l.lines.items l.values };
}

/// One more line, and its values. Nothing changes where memory wants.
#[inline(always)]
fn add(lines: &mut Vec<Line>, kept: &mut Values, line: Line, values: &[Value]) -> Result<(), Memory>
    ensures line { OnOk result (lines.new.items ≡ lines.old.items ++ line ∷ []) }
    ensures values { OnOk result (kept.new ≡ kept.old ++ values.now) }
    ensures no_line { OnErr result (lines.new.items ≡ lines.old.items) }
    ensures no_value { OnErr result (kept.new ≡ kept.old) }
{
    let mark = kept.len();
    kept.extend(values)?;
    match lines.push(line) {
        Ok(()) => Ok(()),
        Err(_) => {
            kept.truncate(mark);
            Err(Memory)
        }
    }
}

/// One more line, with a first value and others. Nothing changes where memory wants.
#[inline(always)]
fn add_behind(
    lines: &mut Vec<Line>,
    kept: &mut Values,
    line: Line,
    first: Value,
    values: &[Value],
) -> Result<(), Memory>
    ensures line { OnOk result (lines.new.items ≡ lines.old.items ++ line ∷ []) }
    ensures values { OnOk result (kept.new ≡ kept.old ++ first ∷ values.now) }
    ensures no_line { OnErr result (lines.new.items ≡ lines.old.items) }
    ensures no_value { OnErr result (kept.new ≡ kept.old) }
{
    let mark = kept.len();
    kept.push(first)?;
    match add(lines, kept, line, values) {
        Ok(()) => Ok(()),
        Err(_) => {
            kept.truncate(mark);
            Err(Memory)
        }
    }
}

/// How many these are.
#[inline(always)]
fn count_of(values: &[Value]) -> Result<u32, Memory>
    ensures { IfOk result (λ count. count ≡ length values.now) }
{
    match u32::try_from(values.len()) {
        Ok(count) => Ok(count),
        Err(_) => Err(Memory),
    }
}

/// A copy of values.
fn copy_of(alloc: Global, values: &[Value]) -> Result<Seq<Value>, Memory>
    ensures { IfOk result (λ copy. copy ≡ values.now) }
{
    let mut copy = Vec::new(alloc);
    copy.extend_from_slice(values)?;
    Ok(Seq::of(copy))
}

impl Lines {
    /// Nothing.
    #[tactic(auto, unfolding(crate::specs::Told::read, crate::specs::Told::widths, crate::specs::Told::AllFit))]
    pub fn new(alloc: Global) -> Lines
        ensures { result ≡ [] }
    {
        Lines {
            alloc,
            lines: Vec::new(alloc),
            values: Values::new(alloc),
            verbs: Verbs::new(alloc),
            rare: Vec::new(alloc),
        }
    }

    /// How many lines there are.
    #[tactic(auto, using(crate::proofs::Behind::read_length))]
    pub fn len(&self) -> usize
        ensures { result ≡ length self.now }
    {
        self.lines.len()
    }

    /// What happened, to be read from the first on.
    pub fn read_on(&self) -> Cursor<'_>
        ensures { result.left ≡ self.now }
    {
        Cursor::of(
            self.lines.as_slice(),
            self.values.lend(),
            self.verbs.as_slice(),
            self.rare.as_slice(),
        )
    }

    /// The lines without their values, and where what they point to is read.
    pub fn skim(&self) -> (&[Line], Cursor<'_>)
        ensures read { (values : List Held) × (read result.1.verbs result.1.rare result.0.now values ≡ self.now) }
        ensures fit { AllFit result.1.verbs result.1.rare result.0.now }
    {
        let lines = self.lines.as_slice();
        let read = Cursor::of(
            lines,
            self.values.lend(),
            self.verbs.as_slice(),
            self.rare.as_slice(),
        );
        (lines, read)
    }

    /// Forgets all that happened, and keeps the room and the verbs.
    #[tactic(auto, unfolding(crate::specs::Told::read, crate::specs::Told::widths, crate::specs::Told::AllFit))]
    pub fn clear(&mut self)
        ensures { self.new ≡ [] }
    {
        self.lines.clear();
        self.values.clear();
        self.rare.clear();
    }

    /// A line without values.
    fn push_bare(&mut self, line: Line) -> Result<(), Memory>
        requires bare { width line ≡ 0 }
        requires fits { Fits [] [] line }
        ensures { OnOk result (self.new ≡ self.old ++ told [] [] line [] ∷ []) }
    {
        add(&mut self.lines, &mut self.values, line, &[])
    }

    /// A line with one value.
    #[inline(always)]
    fn push_one(&mut self, line: Line, value: Value) -> Result<(), Memory>
        requires one { width line ≡ 1 }
        requires fits { Fits [] [] line }
        ensures { OnOk result (self.new ≡ self.old ++ told [] [] line (value ∷ []) ∷ []) }
    {
        add_behind(&mut self.lines, &mut self.values, line, value, &[])
    }

    /// A line with these values.
    fn push_all(&mut self, line: Line, values: &[Value]) -> Result<(), Memory>
        requires all { width line ≡ length values.now }
        requires fits { Fits [] [] line }
        ensures { OnOk result (self.new ≡ self.old ++ told [] [] line values.now ∷ []) }
    {
        add(&mut self.lines, &mut self.values, line, values)
    }

    /// Anything at all, which is to stand whole.
    fn push_rare(&mut self, happened: Happened) -> Result<(), Memory>
        ensures { OnOk result (self.new ≡ self.old ++ happened ∷ []) }
    {
        let Ok(place) = u32::try_from(self.rare.len()) else {
            return Err(Memory);
        };
        self.rare.push(happened)?;
        add(&mut self.lines, &mut self.values, Line::Rare(place), &[])
    }

    /// A list of which the numbers have room in four bytes.
    fn push_list(&mut self, activation: u32, list: u32, members: &[Value]) -> Result<(), Memory>
        ensures { OnOk result (self.new ≡ self.old ++ event.List activation list members.now ∷ []) }
    {
        let count = count_of(members)?;
        self.push_all(Line::List(count, activation, list), members)
    }

    /// A list of which they have not.
    fn push_long_list(
        &mut self,
        activation: ActId,
        list: ListId,
        members: &[Value],
    ) -> Result<(), Memory>
        ensures { OnOk result (self.new ≡ self.old ++ event.List activation list members.now ∷ []) }
    {
        let members = copy_of(self.alloc, members)?;
        self.push_rare(Happened::List(activation, list, members))
    }

    /// A list was made by an activation.
    pub fn list(&mut self, activation: ActId, list: ListId, members: &[Value]) -> Result<(), Memory>
        ensures { OnOk result (self.new ≡ self.old ++ event.List activation list members.now ∷ []) }
    {
        match (short(activation.0), short(list.0)) {
            (Some(act), Some(id)) => self.push_list(act, id, members),
            _ => self.push_long_list(activation, list, members),
        }
    }

    /// A call that begins no activation.
    #[inline(always)]
    fn push_call(
        &mut self,
        activation: u32,
        target: Value,
        verb: &Word,
        args: &[Value],
    ) -> Result<(), Memory>
        ensures { OnOk result (self.new ≡ self.old ++ event.Call activation target verb.now args.now None ∷ []) }
    {
        let count = count_of(args)?;
        let number = self.verbs.number_of(verb)?;
        add_behind(
            &mut self.lines,
            &mut self.values,
            Line::Call(count, activation, number),
            target,
            args,
        )
    }

    /// A call that begins one.
    #[inline(always)]
    fn push_begins(
        &mut self,
        activation: u32,
        target: Value,
        verb: &Word,
        args: &[Value],
        begun: u32,
    ) -> Result<(), Memory>
        ensures { OnOk result (self.new ≡ self.old ++ event.Call activation target verb.now args.now (Some begun) ∷ []) }
    {
        let count = count_of(args)?;
        let number = self.verbs.number_of(verb)?;
        add_behind(
            &mut self.lines,
            &mut self.values,
            Line::Begins(count, activation, number, begun),
            target,
            args,
        )
    }

    /// A call of which the numbers have no room in four bytes.
    fn push_long_call(
        &mut self,
        activation: ActId,
        target: Value,
        verb: &Word,
        args: &[Value],
        begun: Option<ActId>,
    ) -> Result<(), Memory>
        ensures { OnOk result (self.new ≡ self.old ++ event.Call activation target verb.now args.now begun ∷ []) }
    {
        let args = copy_of(self.alloc, args)?;
        let verb = verb.share()?;
        self.push_rare(Happened::Call {
            activation,
            target,
            verb,
            args,
            begun,
        })
    }

    /// A call that begins an activation, by the numbers as they are.
    #[inline(always)]
    fn call_begins(
        &mut self,
        activation: ActId,
        target: Value,
        verb: &Word,
        args: &[Value],
        begun: ActId,
    ) -> Result<(), Memory>
        ensures { OnOk result (self.new ≡ self.old ++ event.Call activation target verb.now args.now (Some begun) ∷ []) }
    {
        match (short(activation.0), short(begun.0)) {
            (Some(act), Some(new)) => self.push_begins(act, target, verb, args, new),
            _ => self.push_long_call(activation, target, verb, args, Some(begun)),
        }
    }

    /// A call that begins none.
    #[inline(always)]
    fn call_only(
        &mut self,
        activation: ActId,
        target: Value,
        verb: &Word,
        args: &[Value],
    ) -> Result<(), Memory>
        ensures { OnOk result (self.new ≡ self.old ++ event.Call activation target verb.now args.now None ∷ []) }
    {
        match short(activation.0) {
            Some(act) => self.push_call(act, target, verb, args),
            None => self.push_long_call(activation, target, verb, args, None),
        }
    }

    /// A call, with the activation that it begins.
    #[inline(always)]
    pub fn call(
        &mut self,
        activation: ActId,
        target: Value,
        verb: &Word,
        args: &[Value],
        begun: Option<ActId>,
    ) -> Result<(), Memory>
        ensures { OnOk result (self.new ≡ self.old ++ event.Call activation target verb.now args.now begun ∷ []) }
    {
        match begun {
            None => self.call_only(activation, target, verb, args),
            Some(begun) => self.call_begins(activation, target, verb, args, begun),
        }
    }

    /// The innermost open call answered.
    #[inline(always)]
    pub fn back(&mut self, activation: ActId, value: Value) -> Result<(), Memory>
        ensures { OnOk result (self.new ≡ self.old ++ event.Back activation value ∷ []) }
    {
        match short(activation.0) {
            Some(act) => self.push_one(Line::Back(act), value),
            None => self.push_rare(Happened::Back(activation, value)),
        }
    }

    /// It threw a problem.
    pub fn thrown(&mut self, activation: ActId, value: Value) -> Result<(), Memory>
        ensures { OnOk result (self.new ≡ self.old ++ event.Thrown activation value ∷ []) }
    {
        match short(activation.0) {
            Some(act) => self.push_one(Line::Thrown(act), value),
            None => self.push_rare(Happened::Thrown(activation, value)),
        }
    }

    /// An escape, a match or a matcher received a value from its ejector.
    #[inline(always)]
    pub fn got(&mut self, activation: ActId, value: Value) -> Result<(), Memory>
        ensures { OnOk result (self.new ≡ self.old ++ event.Got activation value ∷ []) }
    {
        match short(activation.0) {
            Some(act) => self.push_one(Line::Got(act), value),
            None => self.push_rare(Happened::Got(activation, value)),
        }
    }

    /// An ejector was made.
    pub fn ejector(&mut self, activation: ActId, value: Value) -> Result<(), Memory>
        ensures { OnOk result (self.new ≡ self.old ++ event.Ejector activation value ∷ []) }
    {
        match short(activation.0) {
            Some(act) => self.push_one(Line::Ejector(act), value),
            None => self.push_rare(Happened::Ejector(activation, value)),
        }
    }

    /// It was left by an ejection.
    pub fn gone(&mut self, activation: ActId) -> Result<(), Memory>
        ensures { OnOk result (self.new ≡ self.old ++ event.Gone activation ∷ []) }
    {
        match short(activation.0) {
            Some(act) => self.push_bare(Line::Gone(act)),
            None => self.push_rare(Happened::Gone(activation)),
        }
    }

    /// A var slot was made.
    #[inline(always)]
    pub fn slot(&mut self, activation: ActId, slot: SlotId, value: Value) -> Result<(), Memory>
        ensures { OnOk result (self.new ≡ self.old ++ event.Slot activation slot value ∷ []) }
    {
        match (short(activation.0), short(slot.0)) {
            (Some(act), Some(id)) => self.push_one(Line::Slot(act, id), value),
            _ => self.push_rare(Happened::Slot(activation, slot, value)),
        }
    }

    /// A var slot was read.
    #[inline(always)]
    pub fn read(&mut self, activation: ActId, slot: SlotId, value: Value) -> Result<(), Memory>
        ensures { OnOk result (self.new ≡ self.old ++ event.Read activation slot value ∷ []) }
    {
        match (short(activation.0), short(slot.0)) {
            (Some(act), Some(id)) => self.push_one(Line::Read(act, id), value),
            _ => self.push_rare(Happened::Read(activation, slot, value)),
        }
    }

    /// A var slot was written.
    #[inline(always)]
    pub fn wrote(&mut self, activation: ActId, slot: SlotId, value: Value) -> Result<(), Memory>
        ensures { OnOk result (self.new ≡ self.old ++ event.Wrote activation slot value ∷ []) }
    {
        match (short(activation.0), short(slot.0)) {
            (Some(act), Some(id)) => self.push_one(Line::Wrote(act, id), value),
            _ => self.push_rare(Happened::Wrote(activation, slot, value)),
        }
    }

    /// Anything that a call or a list does not tell.
    pub fn push(&mut self, happened: Happened) -> Result<(), Memory>
        ensures { OnOk result (self.new ≡ self.old ++ happened ∷ []) }
    {
        match happened {
            Happened::Back(act, value) => self.back(act, value),
            Happened::Thrown(act, value) => self.thrown(act, value),
            Happened::Gone(act) => self.gone(act),
            Happened::Got(act, value) => self.got(act, value),
            Happened::Slot(act, slot, value) => self.slot(act, slot, value),
            Happened::Read(act, slot, value) => self.read(act, slot, value),
            Happened::Wrote(act, slot, value) => self.wrote(act, slot, value),
            Happened::Ejector(act, value) => self.ejector(act, value),
            other => self.push_rare(other),
        }
    }
}
