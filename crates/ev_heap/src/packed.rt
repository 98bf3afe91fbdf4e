//! Values in little room.

ghost use Rattle.std.specs.Prelude.{◌≡◌, ◌++◌, ◌∷◌, ◌≤◌, [], drop, get_or, length, take, IfSome, OnOk, OnErr};
ghost use Rattle.ev_base.specs.declared.values.Value.TheVariants as value;
ghost use Rattle.ev_base.specs.declared.values.Value.TheVariants.{Null};
ghost use Rattle.ev_heap.specs.declared.packed.Small.TheVariants as small;
ghost use Rattle.ev_heap.specs.Told.{first, others};
ghost use Rattle.ev_heap.specs.Packed.{IsSmallOf, value_of, values_of};

use ev_base::{ListId, Memory, ObjId, PrimId, PromId, TextId, Value, VatId};
use std::alloc::Global;
use std::marker::Model;
use std::mem::size_of;

/// A value in eight bytes, or the place of one that stands aside.
#[derive(Clone, Copy)]
pub enum Small {
    Null,
    Bool(bool),
    Int(i32),
    Char(char),
    Text(u32),
    List(u32),
    Prim(u8),
    Obj(u32),
    Prom(u32),
    /// The place comes first, so that the two take four bytes.
    Far(u16, u8),
    Broken(u32),
    /// A value that wants more room.
    Aside(u32),
}

const _: () = prove!(size_of::<Small>() == 8);

/// A number of a vat in four bytes, where it has room there.
#[inline(always)]
pub(crate) fn short(number: u64) -> Option<u32>
    ensures { IfSome result (λ short. short ≡ number) }
{
    match u32::try_from(number) {
        Ok(short) => Some(short),
        Err(_) => None,
    }
}

/// A whole number, where it has room in four bytes.
#[inline(always)]
fn small_int(number: i128) -> Option<Small>
    ensures { IfSome result (λ small. IsSmallOf (value.Int number) small) }
{
    match i32::try_from(number) {
        Ok(number) => Some(Small::Int(number)),
        Err(_) => None,
    }
}

/// An object of another vat, where its place has room in two bytes.
fn small_far(vat: u8, place: u64) -> Option<Small>
    ensures { IfSome result (λ small. IsSmallOf (value.Far vat place) small) }
{
    match u16::try_from(place) {
        Ok(place) => Some(Small::Far(place, vat)),
        Err(_) => None,
    }
}

/// A value in eight bytes, where it has room in them.
#[inline(always)]
fn small_of(value: Value) -> Option<Small>
    ensures { IfSome result (λ small. IsSmallOf value small) }
{
    match value {
        Value::Null => Some(Small::Null),
        Value::Bool(truth) => Some(Small::Bool(truth)),
        Value::Int(number) => small_int(number),
        Value::Char(c) => Some(Small::Char(c)),
        Value::Text(id) => Some(Small::Text(short(id.0)?)),
        Value::List(id) => Some(Small::List(short(id.0)?)),
        Value::Prim(id) => Some(Small::Prim(id.0)),
        Value::Obj(id) => Some(Small::Obj(short(id.0)?)),
        Value::Prom(id) => Some(Small::Prom(short(id.0)?)),
        Value::Far(vat, place) => small_far(vat.0, place),
        Value::Broken(id) => Some(Small::Broken(short(id.0)?)),
    }
}

/// The value that stands at a place aside.
fn value_aside(aside: &[Value], place: u32) -> Value
    ensures { result ≡ get_or aside.now place value.Null }
{
    match aside.get(place as usize) {
        None => Value::Null,
        Some(value) => *value,
    }
}

/// The value of a small one.
#[inline(always)]
pub fn value_of(aside: &[Value], small: Small) -> Value
    ensures { result ≡ value_of aside.now small }
{
    match small {
        Small::Null => Value::Null,
        Small::Bool(truth) => Value::Bool(truth),
        Small::Int(number) => Value::Int(i128::from(number)),
        Small::Char(c) => Value::Char(c),
        Small::Text(id) => Value::Text(TextId(u64::from(id))),
        Small::List(id) => Value::List(ListId(u64::from(id))),
        Small::Prim(id) => Value::Prim(PrimId(id)),
        Small::Obj(id) => Value::Obj(ObjId(u64::from(id))),
        Small::Prom(id) => Value::Prom(PromId(u64::from(id))),
        Small::Far(place, vat) => Value::Far(VatId(vat), u64::from(place)),
        Small::Broken(id) => Value::Broken(TextId(u64::from(id))),
        Small::Aside(place) => value_aside(aside, place),
    }
}

/// The first so many values, or all where there are fewer, and the others.
fn split(values: &[Small], width: u64) -> (&[Small], &[Small])
    ensures own { result.0.now ≡ take width values.now }
    ensures others { result.1.now ≡ drop width values.now }
{
    if width >= values.len() as u64 {
        (values, &[])
    } else {
        values.split_at(width as usize)
    }
}

/// The small one at a place, or null where there is none.
fn small_at(values: &[Small], place: usize) -> Small
    ensures { result ≡ get_or values.now place small.Null }
{
    match values.get(place) {
        None => Small::Null,
        Some(small) => *small,
    }
}

/// Some of the values of lines, lent.
#[derive(Drop)]
pub struct Held<'a> {
    small: &'a [Small],
    aside: &'a [Value],
}

impl<'a> Model for Held<'a> {
    ghost use Rattle.std.specs.Prelude.{List};
    ghost use Rattle.ev_base.specs.declared.values.Value.{Value as One};
    ghost use Rattle.ev_heap.specs.Packed.{values_of};

    ghost Value = { List One };

    ghost view = { λ h. values_of h.aside.now h.small.now };
}

impl<'a> Held<'a> {
    /// These values, of which some stand aside there.
    pub fn of(small: &'a [Small], aside: &'a [Value]) -> Held<'a>
        ensures { result ≡ values_of aside.now small.now }
    {
        Held { small, aside }
    }

    /// The first so many, or all where there are fewer, and the others.
    pub fn split(&self, width: u64) -> (Held<'a>, Held<'a>)
        ensures own { result.0 ≡ take width self.now }
        ensures others { result.1 ≡ drop width self.now }
    {
        let (own, others) = split(self.small, width);
        (Held::of(own, self.aside), Held::of(others, self.aside))
    }

    /// How many there are.
    #[tactic(auto, unfolding(crate::specs::Packed::values_of))]
    pub fn len(&self) -> usize
        ensures { result ≡ length self.now }
    {
        self.small.len()
    }

    /// The first, or null where there is none.
    #[tactic(auto, unfolding(crate::specs::Packed::values_of))]
    pub fn first(&self) -> Value
        ensures { result ≡ first self.now }
    {
        match self.small.first() {
            None => Value::Null,
            Some(small) => value_of(self.aside, *small),
        }
    }

    /// All but the first.
    #[tactic(auto, unfolding(crate::specs::Packed::values_of))]
    pub fn others(&self) -> Held<'a>
        ensures { result ≡ others self.now }
    {
        match self.small.split_first() {
            None => Held::of(&[], self.aside),
            Some((_, others)) => Held::of(others, self.aside),
        }
    }

    /// The one at a place, or null where there is none.
    pub fn at(&self, place: usize) -> Value
        ensures { result ≡ get_or self.now place Null }
    {
        value_of(self.aside, small_at(self.small, place))
    }
}

/// Values, in order: eight bytes each, and those that want more room once more, aside.
pub struct Values {
    small: Vec<Small>,
    aside: Vec<Value>,
}

impl Drop for Values {
    fn drop(self) {
        let Self {
            small: _small,
            aside: _aside,
        } = self;
    }
}

impl Model for Values {
    ghost use Rattle.std.specs.Prelude.{List, length};
    ghost use Rattle.ev_base.specs.declared.values.Value.{Value as Held};
    ghost use Rattle.ev_heap.specs.Packed.{AreHeld, values_of};

    ghost Value = { List Held };

    ghost view = { λ v. values_of v.aside.items v.small.items };

    ghost invariant = { λ v. AreHeld (length v.aside.items) v.small.items };
}

impl Values {
    /// None.
    #[tactic(auto, unfolding(crate::specs::Packed::values_of, crate::specs::Packed::AreHeld))]
    pub fn new(alloc: Global) -> Values
        ensures { result ≡ [] }
    {
        Values {
            small: Vec::new(alloc),
            aside: Vec::new(alloc),
        }
    }

    /// How many there are.
    #[tactic(auto, unfolding(crate::specs::Packed::values_of))]
    pub fn len(&self) -> usize
        ensures { result ≡ length self.now }
    {
        self.small.len()
    }

    /// Lets go of all but the first so many.
    pub fn truncate(&mut self, len: usize)
        ensures { self.new ≡ take len self.old }
    {
        self.small.truncate(len);
    }

    /// Lets go of all, and keeps their room.
    #[tactic(auto, unfolding(crate::specs::Packed::values_of, crate::specs::Packed::AreHeld))]
    pub fn clear(&mut self)
        ensures { self.new ≡ [] }
    {
        self.small.clear();
        self.aside.clear();
    }

    /// One more that has room in eight bytes.
    fn push_small(&mut self, small: Small, value: Value) -> Result<(), Memory>
        requires { IsSmallOf value small }
        ensures ok { OnOk result (self.new ≡ self.old ++ value ∷ []) }
        ensures err { OnErr result (self.new ≡ self.old) }
    {
        self.small.push(small)?;
        Ok(())
    }

    /// One more that wants more room.
    fn push_aside(&mut self, value: Value) -> Result<(), Memory>
        ensures ok { OnOk result (self.new ≡ self.old ++ value ∷ []) }
        ensures err { OnErr result (self.new ≡ self.old) }
    {
        let Ok(place) = u32::try_from(self.aside.len()) else {
            return Err(Memory);
        };
        self.aside.push(value)?;
        self.small.push(Small::Aside(place))?;
        Ok(())
    }

    /// One more, or all stays as it was.
    #[inline(always)]
    pub fn push(&mut self, value: Value) -> Result<(), Memory>
        ensures ok { OnOk result (self.new ≡ self.old ++ value ∷ []) }
        ensures err { OnErr result (self.new ≡ self.old) }
    {
        let whole = value;
        match small_of(value) {
            None => self.push_aside(whole),
            Some(small) => self.push_small(small, whole),
        }
    }

    /// These behind the others, or all stays as it was.
    pub fn extend(&mut self, values: &[Value]) -> Result<(), Memory>
        ensures ok { OnOk result (self.new ≡ self.old ++ values.now) }
        ensures err { OnErr result (self.new ≡ self.old) }
    {
        let mark = self.len();
        for value in values {
            if let Err(Memory) = self.push(*value) {
                self.truncate(mark);
                return Err(Memory);
            }
        }
        Ok(())
    }

    /// The values, lent in order.
    pub fn lend(&self) -> Held<'_>
        ensures { result ≡ self.now }
    {
        Held::of(self.small.as_slice(), self.aside.as_slice())
    }
}
