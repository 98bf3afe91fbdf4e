//! The heap of one vat.

ghost use Rattle.std.specs.Prelude.{◌≡◌, ◌+◌, ◌<◌, ◌≤◌, ◌↔◌, ◌++◌, ◌∷◌, [], All, IfOk, IfSome, OnErr, OnOk, Some, None, MatchOption, length, option_map, slice_get, slice_set, true, false};
ghost use Rattle.ev_heap.specs.Contents.{Contents, IsWeighable, are_plain, height_of, height_of_all, is_light, is_plain, listed, most_height, most_weight, nothing, weight_of, weight_of_all, within};

use crate::kept::{Cell, GuardKind, Listed, Shape, Thing};
use ev_base::{ActId, ListId, Memory, ObjId, Seq, SlotId, Text, TextId, Value};
use std::alloc::Global;
use std::marker::Model;

/// The greatest weight of a list.
const MOST_WEIGHT: u64 = 65536;

/// The greatest height of a list.
const MOST_HEIGHT: u64 = 100;

/// Why a list was not made.
#[derive(Clone, Copy)]
pub enum ListFault {
    /// It would be heavier or higher than the limits.
    TooHeavy,
    Memory,
}

/// The objects, var slots, lists, texts and activations of one vat. Each kind is numbered from 0 in order of making.
/// Nothing that is kept is ever dropped.
pub struct Heap {
    alloc: Global,
    things: Vec<Thing>,
    slots: Vec<Cell>,
    lists: Seq<Listed>,
    texts: Seq<Text>,
    codes: Seq<Value>,
}

impl Drop for Heap {
    fn drop(self) {
        let Self {
            alloc: _,
            things: _things,
            slots: _slots,
            lists: _lists,
            texts: _texts,
            codes: _codes,
        } = self;
    }
}

impl Model for Heap {
    ghost use Rattle.ev_heap.specs.Contents.{Contents};

    ghost Value = { Contents };

    ghost view = { λ h. record { things = h.things.items; slots = h.slots.items; lists = h.lists; texts = h.texts; codes = h.codes } };
}

impl Heap {
    /// The heap that holds nothing.
    pub fn new(alloc: Global) -> Heap
        ensures { result ≡ nothing }
    {
        Heap {
            alloc,
            things: Vec::new(alloc),
            slots: Vec::new(alloc),
            lists: Seq::new(alloc),
            texts: Seq::new(alloc),
            codes: Seq::new(alloc),
        }
    }

    /// Keeps an object, ejector, resolver or audition, which is alive.
    pub fn make_object(&mut self, shape: Shape) -> Result<ObjId, Memory>
        ensures number { IfOk result (λ id. id ≡ length self.old.things) }
        ensures ok { OnOk result (self.new ≡ record self.old { things = self.old.things ++ record { shape = shape; alive = true } ∷ [] }) }
        ensures err { OnErr result (self.new ≡ self.old) }
    {
        let id = ObjId(self.things.len() as u64);
        self.things.push(Thing { shape, alive: true })?;
        Ok(id)
    }

    /// Keeps a var slot of this guard with this value.
    pub fn make_slot(&mut self, guard: GuardKind, value: Value) -> Result<SlotId, Memory>
        ensures number { IfOk result (λ id. id ≡ length self.old.slots) }
        ensures ok { OnOk result (self.new ≡ record self.old { slots = self.old.slots ++ record { guard = guard; value = value } ∷ [] }) }
        ensures err { OnErr result (self.new ≡ self.old) }
    {
        let id = SlotId(self.slots.len() as u64);
        self.slots.push(Cell { guard, value })?;
        Ok(id)
    }

    /// Keeps a text.
    pub fn make_text(&mut self, text: &str) -> Result<TextId, Memory>
        ensures number { IfOk result (λ id. id ≡ length self.old.texts) }
        ensures ok { OnOk result (self.new ≡ record self.old { texts = self.old.texts ++ text.now ∷ [] }) }
        ensures err { OnErr result (self.new ≡ self.old) }
    {
        let text = Text::copy_of(self.alloc, text)?;
        self.keep_text(text)
    }

    /// Keeps a text that others may hold too.
    pub fn keep_text(&mut self, text: Text) -> Result<TextId, Memory>
        ensures number { IfOk result (λ id. id ≡ length self.old.texts) }
        ensures ok { OnOk result (self.new ≡ record self.old { texts = self.old.texts ++ text ∷ [] }) }
        ensures err { OnErr result (self.new ≡ self.old) }
    {
        let id = TextId(self.texts.len() as u64);
        self.texts.push(text)?;
        Ok(id)
    }

    /// Begins an activation, and keeps the receiver whose code it runs: null for an opening turn.
    pub fn start_activation(&mut self, code: Value) -> Result<ActId, Memory>
        ensures number { IfOk result (λ id. id ≡ length self.old.codes) }
        ensures ok { OnOk result (self.new ≡ record self.old { codes = self.old.codes ++ code ∷ [] }) }
        ensures err { OnErr result (self.new ≡ self.old) }
    {
        let id = ActId(self.codes.len() as u64);
        self.codes.push(code)?;
        Ok(id)
    }

    /// How many objects, ejectors, resolvers and auditions are kept.
    pub fn object_count(&self) -> u64
        ensures { result ≡ length self.now.things }
    {
        self.things.len() as u64
    }

    /// How many var slots are kept.
    pub fn slot_count(&self) -> u64
        ensures { result ≡ length self.now.slots }
    {
        self.slots.len() as u64
    }

    /// How many lists are kept.
    pub fn list_count(&self) -> u64
        ensures { result ≡ length self.now.lists }
    {
        self.lists.len() as u64
    }

    /// How many texts are kept.
    pub fn text_count(&self) -> u64
        ensures { result ≡ length self.now.texts }
    {
        self.texts.len() as u64
    }

    /// The value of a var slot.
    pub fn read(&self, slot: SlotId) -> Value
        requires { slot < length self.now.slots }
        ensures { option_map (λ cell. cell.value) (slice_get self.now.slots slot) ≡ Some result }
    {
        self.slots[slot.0 as usize].value
    }

    /// The guard of a var slot.
    pub fn guard(&self, slot: SlotId) -> GuardKind
        requires { slot < length self.now.slots }
        ensures { option_map (λ cell. cell.guard) (slice_get self.now.slots slot) ≡ Some result }
    {
        self.slots[slot.0 as usize].guard
    }

    /// Writes a var slot, and leaves all else as it was.
    pub fn write(&mut self, slot: SlotId, value: Value)
        requires { slot < length self.old.slots }
        ensures { IfSome (slice_get self.old.slots slot) (λ cell.
            self.new ≡ record self.old { slots = slice_set self.old.slots slot (record cell { value = value }) }) }
    {
        let guard = self.slots[slot.0 as usize].guard;
        self.slots[slot.0 as usize] = Cell { guard, value };
    }

    /// What was given at the making of an object, ejector, resolver or audition.
    pub fn shape(&self, obj: ObjId) -> &Shape
        requires { obj < length self.now.things }
        ensures { option_map (λ thing. thing.shape) (slice_get self.now.things obj) ≡ Some result.now }
    {
        &self.things[obj.0 as usize].shape
    }

    /// Whether it is alive: from its making until `end_object`.
    pub fn is_alive(&self, obj: ObjId) -> bool
        requires { obj < length self.now.things }
        ensures { option_map (λ thing. thing.alive) (slice_get self.now.things obj) ≡ Some result }
    {
        self.things[obj.0 as usize].alive
    }

    /// An ejector or audition is dead from here on. All else stays as it was.
    pub fn end_object(&mut self, obj: ObjId)
        requires { obj < length self.old.things }
        ensures { IfSome (slice_get self.old.things obj) (λ thing.
            self.new ≡ record self.old { things = slice_set self.old.things obj (record thing { alive = false }) }) }
    {
        self.things[obj.0 as usize].alive = false;
    }

    /// The weight of a value: 1 and its bytes for a text or a broken reference, 1 and its members for a list, and else 1.
    pub fn weight(&self, value: Value) -> u64
        requires { IsWeighable self.now value }
        ensures { result ≡ weight_of self.now value }
    {
        match value {
            Value::Text(id) | Value::Broken(id) => self.text(id).len() as u64 + 1,
            Value::List(id) => self.lists.as_slice()[id.0 as usize].weight,
            _ => 1,
        }
    }

    /// How many lists stand round its innermost part, itself one of them.
    pub fn height(&self, value: Value) -> u64
        requires { IsWeighable self.now value }
        ensures { result ≡ height_of self.now value }
    {
        match value {
            Value::List(id) => self.lists.as_slice()[id.0 as usize].height,
            _ => 0,
        }
    }

    /// The weight of a list of these members, if it is within the limit.
    fn list_weight(&self, members: &[Value]) -> Option<u64>
        requires { All (IsWeighable self.now) members.now }
        ensures { result ≡ within most_weight (weight_of_all self.now members.now) }
    {
        let mut weight = 1;
        for member in members {
            let more = self.weight(*member);
            if more > MOST_WEIGHT - weight {
                return None;
            }
            weight += more;
        }
        Some(weight)
    }

    /// The height of a list of these members, if it is within the limit.
    fn list_height(&self, members: &[Value]) -> Option<u64>
        requires { All (IsWeighable self.now) members.now }
        ensures { result ≡ within most_height (height_of_all self.now members.now) }
    {
        let mut height = 1;
        for member in members {
            let inner = self.height(*member);
            if inner >= MOST_HEIGHT {
                return None;
            }
            height = height.max(inner + 1);
        }
        Some(height)
    }

    /// Whether a value is data with no name at any depth. An object, a promise and what is far are names.
    pub fn is_plain(&self, value: Value) -> bool
        requires { IsWeighable self.now value }
        ensures { result ≡ is_plain self.now value }
    {
        match value {
            Value::List(id) => self.lists.as_slice()[id.0 as usize].plain,
            Value::Obj(_) | Value::Prom(_) | Value::Far(_, _) => false,
            _ => true,
        }
    }

    /// Whether these values are all so.
    fn are_plain(&self, members: &[Value]) -> bool
        requires { All (IsWeighable self.now) members.now }
        ensures { result ≡ are_plain self.now members.now }
    {
        for member in members {
            if !self.is_plain(*member) {
                return false;
            }
        }
        true
    }

    /// Whether a list of these members is within the limits.
    pub fn fits(&self, members: &[Value]) -> bool
        requires { All (IsWeighable self.now) members.now }
        ensures { result ≡ is_light self.now members.now }
    {
        self.list_weight(members).is_some() && self.list_height(members).is_some()
    }

    /// What is to be kept of a list of these members, if it is within the limits.
    fn measured(&self, members: &[Value]) -> Result<Listed, ListFault>
        requires { All (IsWeighable self.now) members.now }
        ensures ok { IfOk result (λ l. l ≡ listed self.now members.now) }
        ensures light { OnOk result (is_light self.now members.now ≡ true) }
        ensures heavy { result ≡ Err ListFault.TooHeavy → is_light self.now members.now ≡ false }
    {
        let Some(weight) = self.list_weight(members) else {
            return Err(ListFault::TooHeavy);
        };
        let Some(height) = self.list_height(members) else {
            return Err(ListFault::TooHeavy);
        };
        let plain = self.are_plain(members);
        match Vec::from_slice(self.alloc, members) {
            Ok(copy) => Ok(Listed {
                members: Seq::of(copy),
                weight,
                height,
                plain,
            }),
            Err(_) => Err(ListFault::Memory),
        }
    }

    /// Keeps a list of these members. It refuses with `TooHeavy` exactly where the list would weigh more than 65,536 or be
    /// more than 100 high.
    pub fn make_list(&mut self, members: &[Value]) -> Result<ListId, ListFault>
        requires { All (IsWeighable self.old) members.now }
        ensures number { IfOk result (λ id. id ≡ length self.old.lists) }
        ensures ok { OnOk result (self.new ≡ record self.old { lists = self.old.lists ++ listed self.old members.now ∷ [] }) }
        ensures err { OnErr result (self.new ≡ self.old) }
        ensures light { OnOk result (is_light self.old members.now ≡ true) }
        ensures heavy { result ≡ Err ListFault.TooHeavy → is_light self.old members.now ≡ false }
    {
        let id = ListId(self.lists.len() as u64);
        let list = self.measured(members)?;
        match self.lists.push(list) {
            Ok(()) => Ok(id),
            Err(Memory) => Err(ListFault::Memory),
        }
    }

    /// The members of a list, in order.
    pub fn members(&self, list: ListId) -> &[Value]
        requires { list < length self.now.lists }
        ensures { option_map (λ l. l.members) (slice_get self.now.lists list) ≡ Some result.now }
    {
        self.lists.as_slice()[list.0 as usize].members.as_slice()
    }

    /// A text.
    pub fn text(&self, id: TextId) -> &str
        requires { id < length self.now.texts }
        ensures { slice_get self.now.texts id ≡ Some result.now }
    {
        self.texts.as_slice()[id.0 as usize].as_str()
    }

    /// A text, or none where none is kept of that number.
    pub fn find_text(&self, id: TextId) -> Option<&str>
        ensures { option_map (λ text. text.now) result ≡ slice_get self.now.texts id }
    {
        let Ok(index) = usize::try_from(id.0) else {
            return None;
        };
        self.texts.as_slice().get(index).map(|text| text.as_str())
    }

    /// The receiver whose code an activation runs.
    pub fn code(&self, activation: ActId) -> Value
        requires { activation < length self.now.codes }
        ensures { slice_get self.now.codes activation ≡ Some result }
    {
        self.codes.as_slice()[activation.0 as usize]
    }
}
